// The low steps of a good store, held as sets: where no step is silent, they are the moves but for staying.
ghost use Rattle.std.specs.Prelude.{◌+◌, ◌*◌, ◌≤◌, ◌<◌, length};
ghost use Rattle.model.specs.Inner.ModelOf.{model_of};
ghost use Rattle.model.specs.System.{view};
ghost use Rattle.lts.specs.Weak.{LowStep};
ghost use Rattle.held.specs.Held.{HeldList, HeldAs};
ghost use Rattle.held.specs.Inner.Slots.{Separate};
ghost use Rattle.moves.specs.Inner.Holding.{LowLabels, LowHeld};

use held::slots::{add_held, target_row};
use held::{LABEL_COUNT, POOL_LENGTH, SLOTS_LENGTH};
use model::roled::Roled;
use text::{Action, Step};

// Lists the low actions. Yields how many there are.
fn list_low(store: Roled, labels: &mut [u16; LABEL_COUNT]) -> u16
    ensures { LowLabels (model_of store.entry.store) (model_of store.entry.store).head.actions
        labels.new result }
{
    let n = store.store.actions();
    let mut count = 0;
    for a in 0..n {
        if store.is_low(Action(a)) {
            labels[usize::from(count)] = a;
            count += 1;
        }
    }
    count
}

// Holds step j if it is low: its target for its source, and its source for its target. Yields the next free set.
fn hold_step(
    store: Roled,
    j: Step,
    used: u16,
    slots: &mut [u16; SLOTS_LENGTH],
    pool: &mut [u64; POOL_LENGTH],
) -> u16
    requires j_in_bounds { (j.0 < length (model_of store.store).steps) × (used ≤ 2 * j.0 + 1)
        × Separate used slots.old pool.old }
    requires low_held { LowHeld (model_of store.store) j.0 slots.old pool.old }
    ensures upper_bound { (result ≤ 2 * j.0 + 3) × Separate result slots.new pool.new }
    ensures low_held_2 { LowHeld (model_of store.entry.store) (j.0 + 1) slots.new pool.new }
{
    let a = store.store.action(j);
    if !store.is_low(a) {
        return used;
    }
    let p = store.store.source(j);
    let q = store.store.target(j);
    let row = target_row(a.0);
    let next = add_held(row, p, q, used, slots, pool);
    add_held(row + 1, q, p, next, slots, pool)
}

// Holds the low steps, and lists their labels. Yields how many labels there are.
pub fn hold_low(
    store: Roled,
    labels: &mut [u16; LABEL_COUNT],
    slots: &mut [u16; SLOTS_LENGTH],
    pool: &mut [u64; POOL_LENGTH],
) -> u16
    requires separate { Separate 1 slots.old pool.old × LowHeld (model_of store.store) 0 slots.old pool.old }
    ensures held_list { HeldList (model_of store.entry.store).head.states labels.new result slots.new
        pool.new }
    ensures held_as { HeldAs (LowStep (view (model_of store.entry.store))) labels.new result slots.new
        pool.new }
{
    let n = store.store.steps();
    let mut used = 1;
    for j in 0..n {
        used = hold_step(store, Step(j), used, slots, pool);
    }
    list_low(store, labels)
}
