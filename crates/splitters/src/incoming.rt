// Which labels lead into each state.
ghost use Rattle.std.specs.Prelude.{ℕ, ◌≤◌, ◌<◌};
ghost use Rattle.text.specs.Limits.{state_limit};
ghost use Rattle.sets.specs.Inner.Sets.{Member};
ghost use Rattle.held.specs.Held.{slot_rows};
ghost use Rattle.splitters.specs.Inner.Splitters.{Into, RowNoted};

use held::list::HeldMoves;
use held::slots::target_row;
use sets::set::{below, put_set};
use sets::{SETS_LENGTH, add_member};
use text::State;
use text::limits::ROW;

// Up to so many labels are all noted.
const FEW: u16 = 16;

// Notes the label of number i, whose sources stand in this row, for each state that its moves lead to.
fn note_label(moves: HeldMoves, row: u16, i: u16, into: &mut [u64; SETS_LENGTH])
    requires { (row < slot_rows) × (i < state_limit) }
    ensures { RowNoted moves.entry.pool.now row i into.old into.new }
{
    for q in moves.occupied(row) {
        add_member(into, State(q), i);
    }
}

// Notes all labels of the list for each state, whether their moves lead there or not.
fn note_all(count: u16, into: &mut [u64; SETS_LENGTH])
    requires { count ≤ state_limit }
    ensures { (i q : ℕ) → i < count → q < state_limit → Member into.new q i }
{
    let all = below(count);
    for q in 0..ROW {
        put_set(into, q, all);
    }
}

// Notes each label of the list for each state that its moves lead to.
fn note_each(moves: HeldMoves, into: &mut [u64; SETS_LENGTH])
    ensures { Into moves.entry.labels.now moves.entry.count moves.entry.slots.now into.new }
{
    for i in 0..moves.count {
        let at = i as usize;
        let row = target_row(moves.labels[at]) + 1;
        note_label(moves, row, i, into);
    }
}

// Notes, for each state, at least the labels that lead there: of few labels all, since it costs less to look at each
// than to note which lead where.
pub fn note_labels(moves: HeldMoves, into: &mut [u64; SETS_LENGTH])
    ensures { Into moves.entry.labels.now moves.entry.count moves.entry.slots.now into.new }
{
    if moves.count <= FEW {
        note_all(moves.count, into);
        return;
    }
    note_each(moves, into);
}
