// One round's work on a partition: it is split by the moves with each label to each new class.
ghost use Rattle.std.specs.Prelude.{◌≡◌, ℕ, ◌+◌, ◌≤◌, ◌<◌, get_or};
ghost use Rattle.text.specs.Limits.{state_limit};
ghost use Rattle.held.specs.Held.{slot_rows, Turned};
ghost use Rattle.splitters.specs.Inner.Partition.{SplitTwice};
ghost use Rattle.splitters.specs.Inner.Splitters.{Fresh, SetsKept, LeadsInto, Into};
ghost use Rattle.splitters.specs.Inner.MoveSplits.{UsedClass, UsedLabels, UsedSplit};

use crate::leading::{leading, sources};
use crate::parts::Parts;
use held::list::HeldMoves;
use held::slots::target_row;
use sets::set::{Set, both, is_empty, put_set, set_at, without};
use sets::{SETS_LENGTH, union};
use text::limits::ROW;

// Splits the classes by the moves into the set `fresh`, and those with such a move by the moves into the set `rest`; if
// each state of `fresh` is one of `rest`, each such move is one into `rest` already.
fn split_moves(moves: HeldMoves, row: u16, fresh: Set, rest: Set, old: u16, parts: &mut Parts)
    requires old_le { old ≤ parts.old.classes }
    requires row_bound { row + 1 < slot_rows }
    requires turned { Turned moves.slots.now moves.pool.now row (row + 1) }
    ensures grown { (parts.new.n ≡ parts.old.n) × (parts.old.classes ≤ parts.new.classes) }
    ensures split_twice { SplitTwice parts.old.n old (LeadsInto moves.entry.slots.now moves.entry.pool.now row fresh)
        (LeadsInto moves.entry.slots.now moves.entry.pool.now row rest) parts.old.class parts.old.origin
        parts.new.class parts.new.origin }
{
    let from = both(sources(moves.slots, moves.pool, row, fresh), parts.together);
    if is_empty(from) {
        return;
    }
    parts.split(from, old);
    if is_empty(without(fresh, rest)) {
        return;
    }
    let left = both(from, parts.together);
    let to_rest = leading(moves.slots, moves.pool, row, row + 1, left, rest);
    parts.split(to_rest, old);
}

// Splits the classes by the moves with each label to new class j, of those labels that lead there.
fn refine_class(
    moves: HeldMoves,
    into: &[u64; SETS_LENGTH],
    j: u16,
    old: u16,
    fresh: &[u64; SETS_LENGTH],
    rest: &[u64; SETS_LENGTH],
    parts: &mut Parts,
)
    requires j_lt_state_limit { (j < state_limit) × (old ≤ parts.old.classes) }
    requires into { Into moves.labels.now moves.count moves.slots.now into.now }
    ensures grown { (parts.new.n ≡ parts.old.n) × (parts.old.classes ≤ parts.new.classes) }
    ensures used_split { UsedSplit parts.old.n old moves.entry.slots.now moves.entry.pool.now
        (UsedClass j moves.entry.labels.now moves.entry.count) fresh.now rest.now parts.old.class parts.old.origin
        parts.new.class parts.new.origin }
{
    let new = set_at(fresh, j as usize);
    let from = set_at(rest, j as usize);
    for i in union(into, new) {
        if i >= moves.count {
            return;
        }
        let row = target_row(moves.labels[i as usize]);
        split_moves(moves, row, new, from, old, parts);
    }
}

// Splits the classes by the moves with each label to each new class.
pub fn refine(
    moves: HeldMoves,
    into: &[u64; SETS_LENGTH],
    first: u16,
    old: u16,
    fresh: &[u64; SETS_LENGTH],
    rest: &[u64; SETS_LENGTH],
    parts: &mut Parts,
)
    requires first_le { (first ≤ old) × (old ≤ parts.old.classes) }
    requires into { Into moves.labels.now moves.count moves.slots.now into.now }
    ensures grown { (parts.new.n ≡ parts.old.n) × (parts.old.classes ≤ parts.new.classes) }
    ensures used_split { UsedSplit parts.old.n old moves.entry.slots.now moves.entry.pool.now
        (UsedLabels first old moves.entry.labels.now moves.entry.count) fresh.now rest.now parts.old.class
        parts.old.origin parts.new.class parts.new.origin }
{
    for j in first..old {
        if is_empty(parts.together) {
            return;
        }
        refine_class(moves, into, j, old, fresh, rest, parts);
    }
}

// Notes the new classes, and those that they were divided off, before they are divided themselves.
pub fn note_fresh(
    first: u16,
    classes: u16,
    members: &[u64; SETS_LENGTH],
    origin: &[u16; ROW],
    fresh: &mut [u64; SETS_LENGTH],
    rest: &mut [u64; SETS_LENGTH],
)
    requires { (classes ≤ state_limit)
        × ((j : ℕ) → first ≤ j → j < classes → get_or origin.now j 0 < state_limit) }
    ensures { Fresh first classes members.now origin.now fresh.new
        rest.new × SetsKept first fresh.old fresh.new }
{
    for j in first..classes {
        let at = j as usize;
        let from = origin[at] as usize;
        put_set(fresh, at, set_at(members, at));
        put_set(rest, at, set_at(members, from));
    }
}
