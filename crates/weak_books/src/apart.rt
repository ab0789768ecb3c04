// The first opening of a state against another: a move to which no answer leads to the same class.
ghost use Rattle.std.specs.Prelude.{ℕ, ◌≤◌, ◌<◌};
ghost use Rattle.text.specs.Limits.{state_limit};
ghost use Rattle.held.specs.Held.{slot_rows, HeldAt};
ghost use Rattle.held.specs.Moves.{held_moves};
ghost use Rattle.splitters.specs.Inner.Partition.{ClassSets};
ghost use Rattle.weak_books.specs.Inner.OpensTo.{LowestOf};
ghost use Rattle.weak_books.specs.Inner.Entering.{OtherClass, FirstApart};

use crate::opening::Opening;
use by_state::lists::class_at;
use held::list::HeldMoves;
use held::slots::target_row;
use sets::SETS_LENGTH;
use sets::set::{both, is_empty, least, set_at, without};
use text::limits::{ROW, STATE_LIMIT};
use text::{Action, State};

// The lowest target of p in this row to which no target of q is alike. Each class is tried once: the states alike to a
// target are taken out with it, so that no iterator over the targets walks them.
fn lowest_by_class(
    moves: HeldMoves,
    row: u16,
    class: &[u16; ROW],
    members: &[u64; SETS_LENGTH],
    p: State,
    q: State,
) -> Option<State>
    requires n_le_state_limit { (moves.n ≤ state_limit) × (p.0 < state_limit) × (q.0 < state_limit) × (row < slot_rows) }
    requires by_index { (x y : ℕ) → x < state_limit → HeldAt moves.slots.now moves.pool.now row x y → y < moves.n }
    requires class_sets { ClassSets moves.n class.now members.now }
    ensures { LowestOf (HeldAt moves.entry.slots.now moves.entry.pool.now row) (OtherClass class.now) p.0 q.0 result }
{
    let answers = moves.held(row, q);
    let mut left = without(moves.held(row, p), answers);
    let mut t = least(left);
    while t < STATE_LIMIT {
        let c = class_at(class, State(t));
        let alike = set_at(members, c.0 as usize);
        if is_empty(both(alike, answers)) {
            return Some(State(t));
        }
        left = without(left, alike);
        t = least(left);
    }
    None
}

// The same, with a look at the slots first: equal sets are mostly shared, and with the same slot each target of p is
// one of q.
fn lowest_apart(
    moves: HeldMoves,
    row: u16,
    class: &[u16; ROW],
    members: &[u64; SETS_LENGTH],
    p: State,
    q: State,
) -> Option<State>
    requires n_le_state_limit { (moves.n ≤ state_limit) × (p.0 < state_limit) × (q.0 < state_limit) × (row < slot_rows) }
    requires by_index { (x y : ℕ) → x < state_limit → HeldAt moves.slots.now moves.pool.now row x y → y < moves.n }
    requires class_sets { ClassSets moves.n class.now members.now }
    ensures { LowestOf (HeldAt moves.entry.slots.now moves.entry.pool.now row) (OtherClass class.now) p.0 q.0 result }
{
    if moves.same_slot(row, p, q) {
        return None;
    }
    lowest_by_class(moves, row, class, members, p, q)
}

// The first opening of p against q.
pub fn find_opening(
    moves: HeldMoves,
    class: &[u16; ROW],
    members: &[u64; SETS_LENGTH],
    p: State,
    q: State,
) -> Option<Opening>
    requires p_lt_state_limit { (p.0 < state_limit) × (q.0 < state_limit) }
    requires class_sets { ClassSets moves.n class.now members.now }
    ensures { FirstApart (held_moves moves.entry) class.now p.0 q.0 result }
{
    for i in 0..moves.count {
        let label = moves.labels[i as usize];
        let row = target_row(label);
        if let Some(target) = lowest_apart(moves, row, class, members, p, q) {
            return Some(Opening {
                label: Action(label),
                target,
            });
        }
    }
    None
}
