// The rounds: in each, the classes are divided by the keys of all labels.
ghost use Rattle.std.specs.Prelude.{◌+◌, ◌≤◌, ◌<◌, length};
ghost use Rattle.lts.specs.Weak.{silent_label};
ghost use Rattle.text.specs.Limits.{state_limit, table_length};
ghost use Rattle.silent.specs.Steps.{label_moves};
ghost use Rattle.silent.specs.Inner.Keys.{Keys};
ghost use Rattle.silent.specs.Inner.Targets.{Targets};
ghost use Rattle.ranking.specs.Table.{Ranked};
ghost use Rattle.ranking.specs.Inner.ClassList.{Classes, Refined, Changed, RoundSeparates};
ghost use Rattle.ranking.specs.Inner.TableWrites.{entry_of, Outside, RanksUpTo, Finished};
ghost use Rattle.weak_ranks.specs.Inner.Dividing.{LeadClasses, LabelBelow, DividedUnder};

use crate::dividing::divide_by_keys;
use by_state::lists::class_at;
use ranking::table::clear;
use ranking::writes::write_rows;
use sets::SETS_LENGTH;
use silent::keys::{low_keys, silent_keys_along};
use silent::steps::LabelSteps;
use silent::targets::{own_numbers, silent_targets};
use text::limits::{ACTION_LIMIT, ROW, TABLE_LENGTH};
use text::{Action, State};

// Divides the classes by the moves under each action.
fn divide_low(
    steps: LabelSteps,
    there: &[u64; SETS_LENGTH],
    class: &[u16; ROW],
    silent: &[u64; SETS_LENGTH],
    next: &mut [u16; ROW],
)
    requires targets { Targets (label_moves steps) silent_label there.now }
    requires lead_classes { LeadClasses steps.n class.now × LeadClasses steps.n next.old }
    requires keys { Keys (label_moves steps) silent_label class.now silent.now }
    requires divided_under { DividedUnder (label_moves steps) (LabelBelow 0) steps.n class.now
        next.old }
    ensures lead_classes_2 { LeadClasses steps.entry.n next.new }
    ensures refined { Refined (label_moves steps.entry) steps.entry.n
        class.now next.new }
{
    let mut keys = [0u64; SETS_LENGTH];
    for a in 0..ACTION_LIMIT {
        let of = a as usize;
        if steps.from[of] < steps.from[of + 1] {
            low_keys(steps, there, class, silent, Action(a), &mut keys);
            divide_by_keys(steps.n, &keys, next);
        }
    }
}

// The classes one round later.
// `there` stays beside the steps: that its sets are their targets yields moves, and these are more than a fact, which
// is all that a ghost field keeps. `LeadClasses` stays a clause: it is of the steps' states, and a struct with an n of
// its own would need the clause that both are as many.
fn refine_by_keys(
    steps: LabelSteps,
    there: &[u64; SETS_LENGTH],
    class: &[u16; ROW],
    next: &mut [u16; ROW],
)
    requires targets { Targets (label_moves steps) silent_label there.now }
    requires lead_classes { LeadClasses steps.n class.now }
    ensures lead_classes_2 { LeadClasses steps.entry.n next.new }
    ensures refined { Refined (label_moves steps.entry) steps.entry.n
        class.now next.new }
{
    let mut silent = [0u64; SETS_LENGTH];
    *next = *class;
    silent_keys_along(steps, there, class, &mut silent);
    divide_by_keys(steps.n, &silent, next);
    divide_low(steps, there, class, &silent, next);
}

// Lists the states whose class changes. Yields how many there are.
fn list_changed(n: u16, class: &[u16; ROW], next: &[u16; ROW], list: &mut [u16; ROW]) -> u16
    requires { n ≤ state_limit }
    ensures { Changed n class.now next.now list.new result }
{
    let mut count = 0;
    for p in 0..n {
        if class_at(class, State(p)) != class_at(next, State(p)) {
            list[count as usize] = p;
            count += 1;
        }
    }
    count
}

// One round after k of them: divides the classes, and writes its number for each two states that it separates. Yields
// how many states changed their class.
fn weak_round(
    steps: LabelSteps,
    there: &[u64; SETS_LENGTH],
    k: u8,
    class: &mut [u16; ROW],
    table: &mut [u8],
) -> u16
    requires targets { Targets (label_moves steps) silent_label there.now }
    requires k_lt_n { (k < steps.n) × LeadClasses steps.n class.old
        × Classes (label_moves steps) steps.n k class.old }
    requires table_length_in_bounds { table_length ≤ length table.old }
    requires ranks_up_to { RanksUpTo (label_moves steps) steps.n k (entry_of table.old) }
    ensures lead_classes { LeadClasses steps.entry.n class.new
        × Classes (label_moves steps.entry) steps.entry.n (k + 1)
        class.new }
    ensures ranks_up_to_2 { RanksUpTo (label_moves steps.entry) steps.entry.n (k + 1)
        (entry_of table.new) }
    ensures outside { Outside steps.entry.n table.old table.new }
    ensures round_separates { RoundSeparates (label_moves steps.entry) steps.entry.n k
        result }
{
    let mut next = [0u16; ROW];
    let mut list = [0u16; ROW];
    refine_by_keys(steps, there, class, &mut next);
    let changed = list_changed(steps.n, class, &next, &mut list);
    write_rows(table, class, &next, k + 1, steps.n, &list, changed);
    *class = next;
    changed
}

// Goes round until a round separates no further pair, and yields the last round that did.
fn weak_rounds(steps: LabelSteps, there: &[u64; SETS_LENGTH], table: &mut [u8]) -> u8
    requires targets { Targets (label_moves steps) silent_label there.now }
    requires table_length_in_bounds { table_length ≤ length table.old }
    requires ranks_up_to { RanksUpTo (label_moves steps) steps.n 0 (entry_of table.old) }
    ensures { Finished (label_moves steps.entry) steps.entry.n result
        table.old table.new }
{
    let mut class = [0u16; ROW];
    let mut k = 0;
    // A loop that leaves with `break`, the form that is named for rounds: how many come is not known before.
    let last = loop {
        let changed = weak_round(steps, there, k, &mut class, table);
        if changed == 0 {
            break k;
        }
        k += 1;
    };
    last
}

// Fills the table with the ranks of n states, and answers the last round that separated two of them.
pub fn rank_labels(steps: LabelSteps, table: &mut [u8]) -> u8
    requires table_length_in_bounds { table_length ≤ length table.old }
    ensures { Ranked (label_moves steps.entry) steps.entry.n
        table.old table.new result }
{
    let mut own = [0u16; ROW];
    let mut there = [0u64; SETS_LENGTH];
    own_numbers(steps.n, &mut own);
    silent_targets(steps, &own, &mut there);
    clear(table, TABLE_LENGTH);
    weak_rounds(steps, &there, table)
}
