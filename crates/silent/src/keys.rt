// The keys of states: for each label, the classes that the moves of each state with this label lead to.
ghost use Rattle.std.specs.Prelude.{false, ◌≡◌, ℕ, ◌≤◌, ◌<◌, length, get_or};
ghost use Rattle.lts.specs.Weak.{silent_label};
ghost use Rattle.text.specs.Limits.{state_limit, action_limit};
ghost use Rattle.by_state.specs.Inner.Numbered.{ClassNumbers};
ghost use Rattle.sets.specs.Inner.Sets.{Member, Joined};
ghost use Rattle.silent.specs.Labelled.{LabelStep};
ghost use Rattle.silent.specs.Steps.{label_moves, label_ticks};
ghost use Rattle.silent.specs.Inner.Keys.{turn_place, OfStates, OwnClasses, SpreadOnce, ClosedUnder, Closed};
ghost use Rattle.silent.specs.Inner.Keys.{Gathered, Keys};
ghost use Rattle.silent.specs.Inner.Targets.{Targets};

use crate::steps::LabelSteps;
use sets::set::{put_set, set_at};
use sets::{SETS_LENGTH, add_member, clear_sets, join, spread, union};
use text::limits::{ACTION_LIMIT, ROW};
use text::{Action, State};

// The passes over the silent steps that are made before sets are closed by rows.
const FEW_PASSES: u16 = 4;

// Makes set p the class of p alone, for each of n states.
fn own_classes(n: u16, class: &[u16; ROW], sets: &mut [u64; SETS_LENGTH])
    requires { (n ≤ state_limit) × ClassNumbers n class.now }
    ensures { OwnClasses n class.now sets.new }
{
    clear_sets(sets);
    for p in 0..n {
        add_member(sets, State(p), class[p as usize]);
    }
}

// The place that a pass looks at in its turn i.
fn turn_place(begin: usize, end: usize, backward: bool, i: usize) -> usize
    requires { (begin ≤ i) × (i < end) }
    ensures { (result ≡ turn_place backward begin end i) × (begin ≤ result) × (result < end) }
{
    if backward {
        return begin + (end - 1 - i);
    }
    i
}

// A turn of a pass: adds the members of set q to set p. Yields true where set p has grown though it is marked, and else
// `again`.
fn turn(p: State, q: State, marks: &[u8; ROW], again: bool, sets: &mut [u64; SETS_LENGTH]) -> bool
    requires { (p.0 < state_limit) × (q.0 < state_limit) }
    ensures joined { Joined p.0 (Member sets.old q.0) sets.old sets.new }
    ensures again_value { result ≡ false → (again ≡ false)
        × (get_or marks.now p.0 0 ≡ 1 → sets.new ≡ sets.old) }
{
    if !spread(sets, p, q) {
        return again;
    }
    if marks[p.0 as usize] == 1 {
        return true;
    }
    again
}

// Adds to the set of the source of each silent step the members of that of its target, from the last step to the first
// or the other way. Yields whether a further pass can change a set: one has grown after it was read. The sets that were
// read are marked, a byte for each: a store is cheaper in this loop than a bit. Which way it goes is a flag and no
// closure: the callers turn it round with each pass.
fn pass(steps: LabelSteps, backward: bool, sets: &mut [u64; SETS_LENGTH]) -> bool
    requires of_states { OfStates steps.n sets.old }
    ensures spread_once { SpreadOnce (label_ticks steps.entry) steps.entry.n
        sets.old sets.new }
    ensures closed_under { result ≡ false
        → ClosedUnder (label_ticks steps.entry)
        sets.new }
{
    let begin = steps.from[ACTION_LIMIT as usize] as usize;
    let end = steps.from[ACTION_LIMIT as usize + 1] as usize;
    let mut marks = [0u8; ROW];
    let mut again = false;
    for i in begin..end {
        let at = turn_place(begin, end, backward, i);
        let p = State(steps.sources[at]);
        let q = State(steps.targets[at]);
        again = turn(p, q, &marks, again, sets);
        marks[q.0 as usize] = 1;
    }
    again
}

// Gives each set the members of the sets of all states that a silent move leads to. The passes go to and fro, so that
// silent steps in the order of their sources, or against it, need few of them.
fn close_sets(steps: LabelSteps, sets: &mut [u64; SETS_LENGTH])
    requires of_states { OfStates steps.n sets.old }
    ensures { Closed (label_ticks steps.entry) steps.entry.n
        sets.old sets.new }
{
    let mut backward = true;
    for _passes in 0..steps.n {
        if !pass(steps, backward, sets) {
            return;
        }
        backward = !backward;
    }
}

// Gives set p, for each of n states, the members of the sets of all members of row p, in place of its own.
fn close_by_rows(n: u16, rows: &[u64; SETS_LENGTH], sets: &mut [u64; SETS_LENGTH])
    requires { (n ≤ state_limit) × OfStates n sets.old }
    ensures { Gathered (λ p q. (p < n) × Member rows.now p q) sets.old
        sets.new }
{
    let before = *sets;
    for k in 0..n as usize {
        put_set(sets, k, union(&before, set_at(rows, k)));
    }
}

// The same as close_sets, where the targets of silent moves are at hand. Where silent steps go to and fro between low
// and high states, nearly as many passes as states can be needed: after a few of them the rows cost less.
fn close_along(steps: LabelSteps, there: &[u64; SETS_LENGTH], sets: &mut [u64; SETS_LENGTH])
    requires targets { Targets (label_moves steps) silent_label there.now }
    requires of_states { OfStates steps.n sets.old }
    ensures { Closed (label_ticks steps.entry) steps.entry.n
        sets.old sets.new }
{
    let mut backward = true;
    for _passes in 0..FEW_PASSES {
        if !pass(steps, backward, sets) {
            return;
        }
        backward = !backward;
    }
    close_by_rows(steps.n, there, sets);
}

// Gives set p the members of the sets of all states that a step with the action leads to from p.
fn gather(
    steps: LabelSteps,
    a: Action,
    sets: &[u64; SETS_LENGTH],
    gathered: &mut [u64; SETS_LENGTH],
)
    requires a_lt_action_limit { a.0 < action_limit }
    ensures { Gathered (LabelStep steps.entry.from.now steps.entry.sources.now steps.entry.targets.now a.0)
        sets.now gathered.new }
{
    clear_sets(gathered);
    let of = a.0 as usize;
    let begin = steps.from[of] as usize;
    let end = steps.from[of + 1] as usize;
    for i in begin..end {
        let p = State(steps.sources[i]);
        let q = State(steps.targets[i]);
        join(gathered, p, sets, q);
    }
}

// The keys of the states under the silent label.
pub fn silent_keys(steps: LabelSteps, class: &[u16; ROW], keys: &mut [u64; SETS_LENGTH])
    requires class_numbers { ClassNumbers steps.n class.now }
    ensures { Keys (label_moves steps.entry) silent_label
        class.now keys.new }
{
    own_classes(steps.n, class, keys);
    close_sets(steps, keys);
}

// The same, where the targets of silent moves are at hand.
pub fn silent_keys_along(
    steps: LabelSteps,
    there: &[u64; SETS_LENGTH],
    class: &[u16; ROW],
    keys: &mut [u64; SETS_LENGTH],
)
    requires targets { Targets (label_moves steps) silent_label there.now }
    requires class_numbers { ClassNumbers steps.n class.now }
    ensures { Keys (label_moves steps.entry) silent_label
        class.now keys.new }
{
    own_classes(steps.n, class, keys);
    close_along(steps, there, keys);
}

// The keys of the states under an action, from the targets of silent moves and the keys under the silent label.
pub fn low_keys(
    steps: LabelSteps,
    there: &[u64; SETS_LENGTH],
    class: &[u16; ROW],
    silent: &[u64; SETS_LENGTH],
    a: Action,
    keys: &mut [u64; SETS_LENGTH],
)
    requires targets { Targets (label_moves steps) silent_label there.now }
    requires class_numbers { ClassNumbers steps.n class.now }
    requires a_lt_action_limit { a.0 < action_limit }
    requires keys { Keys (label_moves steps) silent_label class.now silent.now }
    ensures { Keys (label_moves steps.entry) a.0
        class.now keys.new }
{
    gather(steps, a, silent, keys);
    close_along(steps, there, keys);
}
