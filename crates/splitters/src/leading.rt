// Which states have moves into a set of states. Over slots and pool, since nothing is asked of labels here, as
// `HeldMoves` would.
ghost use Rattle.std.specs.Prelude.{◌+◌, ◌<◌};
ghost use Rattle.sets.specs.Inner.SetValues.{In, SetOf};
ghost use Rattle.held.specs.Held.{slot_rows, pool_sets, Turned};
ghost use Rattle.held.specs.Inner.Slots.{Pooled};
ghost use Rattle.splitters.specs.Inner.Splitters.{LeadsInto, LedFrom};

use held::slots::{held, occupied};
use held::{POOL_LENGTH, SLOTS_LENGTH};
use sets::set::{Set, both, either, greatest, is_empty, none, without};
use text::State;
use text::limits::STATE_LIMIT;

// What the members of a set have together, in their sets of this row.
pub fn joint(slots: &[u16; SLOTS_LENGTH], pool: &[u64; POOL_LENGTH], row: u16, set: Set) -> Set
    requires { (row < slot_rows) × Pooled pool_sets slots.now pool.now }
    ensures { SetOf (LedFrom slots.now pool.now row set) result }
{
    let mut found = none();
    for t in set {
        found = either(found, held(slots, pool, row, State(t)));
    }
    found
}

// The states with a move into a set: `row` has the targets, and the next one the sources. If the set has all targets,
// they are those with any move.
pub fn sources(slots: &[u16; SLOTS_LENGTH], pool: &[u64; POOL_LENGTH], row: u16, set: Set) -> Set
    requires row_bound { (row + 1 < slot_rows) × Pooled pool_sets slots.now pool.now }
    requires turned { Turned slots.now pool.now row (row + 1) }
    ensures { SetOf (LedFrom slots.now pool.now (row + 1) set) result }
{
    let targets = occupied(pool, row + 1);
    if is_empty(without(targets, set)) {
        return occupied(pool, row);
    }
    joint(slots, pool, row + 1, both(set, targets))
}

// Those of a set that have a move into a goal: `row` has the targets, and `back` the sources. A target in the goal
// tells of all that lead to it; of several targets the greatest is taken.
pub fn leading(
    slots: &[u16; SLOTS_LENGTH],
    pool: &[u64; POOL_LENGTH],
    row: u16,
    back: u16,
    set: Set,
    goal: Set,
) -> Set
    requires row_lt_slot_rows { (row < slot_rows) × (back < slot_rows) × Pooled pool_sets slots.now pool.now }
    requires turned { Turned slots.now pool.now row back }
    ensures { SetOf (λ p. In set p × LeadsInto slots.now pool.now row goal p) result }
{
    let mut found = none();
    let mut left = set;
    while let Some(p) = left.pop() {
        let t = greatest(both(held(slots, pool, row, State(p)), goal));
        if t < STATE_LIMIT {
            let told = held(slots, pool, back, State(t));
            found = either(found, told);
            left = without(left, told);
        }
    }
    both(found, set)
}
