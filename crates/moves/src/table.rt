// The table of ranks of a model.
ghost use Rattle.std.specs.Prelude.{◌≤◌, length};
ghost use Rattle.model.specs.Inner.ModelOf.{model_of};
ghost use Rattle.text.specs.Limits.{table_length};
ghost use Rattle.held.specs.Inner.Slots.{Pooled, Separate};
ghost use Rattle.ranking.specs.Table.{Ranked};
ghost use Rattle.model.specs.System.{view};
ghost use Rattle.lts.specs.Weak.{LowStep, WeakMove};
ghost use Rattle.moves.specs.Inner.Holding.{LowHeld};

use crate::labels::{list_labels, some_silent};
use crate::steps::hold_low;
use held::labels::hold_labels;
use held::list::HeldMoves;
use held::{LABEL_COUNT, POOL_LENGTH, SLOTS_LENGTH};
use model::roled::Roled;
use silent::LABELS_LENGTH;
use silent::steps::LabelSteps;
use splitters::rounds::rank_held;
use text::limits::MOVES_LENGTH;
use weak_ranks::rounds::rank_labels;

// Fills the table by the low steps, which are the moves that are played but for staying where no step is silent. The
// sets are empty.
fn rank_low(
    store: Roled,
    labels: &mut [u16; LABEL_COUNT],
    slots: &mut [u16; SLOTS_LENGTH],
    pool: &mut [u64; POOL_LENGTH],
    table: &mut [u8],
) -> u8
    requires table_length_in_bounds { table_length ≤ length table.old }
    requires separate { Separate 1 slots.old pool.old × LowHeld (model_of store.store) 0 slots.old pool.old }
    ensures { Ranked (LowStep (view (model_of store.entry.store))) (model_of store.entry.store).head.states
        table.old table.new result }
{
    let count = hold_low(store, labels, slots, pool);
    let n = store.store.states();
    let moves = HeldMoves {
        n,
        labels,
        count,
        slots,
        pool,
    };
    rank_held(moves, table)
}

// The same with sets of its own.
pub fn fill_plain_table(store: Roled, table: &mut [u8]) -> u8
    requires { table_length ≤ length table.old }
    ensures { Ranked (LowStep (view (model_of store.entry.store))) (model_of store.entry.store).head.states
        table.old table.new result }
{
    let mut labels = [0u16; LABEL_COUNT];
    let mut slots = [0u16; SLOTS_LENGTH];
    let mut pool = [0u64; POOL_LENGTH];
    rank_low(store, &mut labels, &mut slots, &mut pool, table)
}

// Fills the table by the lists by label, whatever steps are silent. The moves are held as sets if there is room.
fn fill_label_table(
    store: Roled,
    labels: &mut [u16; LABEL_COUNT],
    slots: &mut [u16; SLOTS_LENGTH],
    pool: &mut [u64; POOL_LENGTH],
    table: &mut [u8],
) -> u8
    requires table_length_in_bounds { table_length ≤ length table.old }
    requires pooled { Pooled 1 slots.old pool.old }
    ensures { Ranked (WeakMove (view (model_of store.entry.store)))
        (model_of store.entry.store).head.states table.old table.new result }
{
    let mut from = [0u16; LABELS_LENGTH];
    let mut sources = [0u16; MOVES_LENGTH];
    let mut targets = [0u16; MOVES_LENGTH];
    list_labels(store, &mut from, &mut sources, &mut targets);
    let n = store.store.states();
    let steps = LabelSteps {
        n,
        from: &from,
        sources: &sources,
        targets: &targets,
    };
    let Some(count) = hold_labels(steps, labels, slots, pool) else {
        return rank_labels(steps, table);
    };
    let moves = HeldMoves {
        n,
        labels,
        count,
        slots,
        pool,
    };
    rank_held(moves, table)
}

// Fills the table with the ranks of a good store's states, and yields the last round that separated two of them. Both
// ways share the sets, so that they stand once on the stack.
pub fn fill_table(store: Roled, table: &mut [u8]) -> u8
    requires { table_length ≤ length table.old }
    ensures { Ranked (WeakMove (view (model_of store.entry.store)))
        (model_of store.entry.store).head.states table.old table.new result }
{
    let mut labels = [0u16; LABEL_COUNT];
    let mut slots = [0u16; SLOTS_LENGTH];
    let mut pool = [0u64; POOL_LENGTH];
    if some_silent(store) {
        return fill_label_table(store, &mut labels, &mut slots, &mut pool, table);
    }
    rank_low(store, &mut labels, &mut slots, &mut pool, table)
}
