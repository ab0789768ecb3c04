// The places of the model store, and what stands at them. These take any long enough list, since whether a store is good
// is tested by them; `GoodStore` has the same as methods.
ghost use Rattle.std.specs.Prelude.{◌≡◌, ◌≤◌, ◌<◌, length, get_or};
ghost use Rattle.text.specs.Limits.{action_limit, step_limit, store_length, action_place, name_length_place};
ghost use Rattle.text.specs.Limits.{name_place};
ghost use Rattle.text.specs.Limits.{step_place, extra_limit, extra_place};
ghost use Rattle.model.specs.StoredModel.{head_at, action_at, step_at, extra_count_at, extra_start_at};

use text::limits::{
    ACTION_COLUMN, ACTION_COUNT_PLACE, ACTION_SIZE, ACTIONS_BEGIN, EXTRA_BEGIN, EXTRA_COUNT_PLACE,
    NAME_COLUMN, NAME_LENGTH_COLUMN, START_PLACE, STATE_COUNT_PLACE, STEP_COUNT_PLACE, STEP_SIZE,
    STEPS_BEGIN, TARGET_COLUMN,
};
use text::{Action, Head, State, Step, StepLine};

pub fn states(store: &[u16]) -> u16
    requires { store_length ≤ length store.now }
    ensures { result ≡ (head_at store.now).states }
{
    store[STATE_COUNT_PLACE]
}

pub fn actions(store: &[u16]) -> u16
    requires { store_length ≤ length store.now }
    ensures { result ≡ (head_at store.now).actions }
{
    store[ACTION_COUNT_PLACE]
}

pub fn steps(store: &[u16]) -> u16
    requires { store_length ≤ length store.now }
    ensures { result ≡ (head_at store.now).steps }
{
    store[STEP_COUNT_PLACE]
}

pub fn start(store: &[u16]) -> State
    requires { store_length ≤ length store.now }
    ensures { result ≡ (head_at store.now).start }
{
    State(store[START_PLACE])
}

pub fn head(store: &[u16]) -> Head
    requires { store_length ≤ length store.now }
    ensures { result ≡ head_at store.now }
{
    Head {
        states: states(store),
        actions: actions(store),
        steps: steps(store),
        start: start(store),
    }
}

// Where an action begins: its level, then the length of its name.
pub fn action_place(a: Action) -> usize
    ensures { result ≡ action_place a.0 }
{
    ACTIONS_BEGIN + ACTION_SIZE * usize::from(a.0)
}

// Where the bytes of an action's name begin.
pub fn name_place(a: Action) -> usize
    ensures { result ≡ name_place a.0 }
{
    action_place(a) + NAME_COLUMN
}

pub fn level(store: &[u16], a: Action) -> u16
    requires { (store_length ≤ length store.now) × (a.0 < action_limit) }
    ensures { result ≡ (action_at store.now a.0).level }
{
    store[action_place(a)]
}

pub fn name_length(store: &[u16], a: Action) -> u16
    requires { (store_length ≤ length store.now) × (a.0 < action_limit) }
    ensures { result ≡ get_or store.now (name_length_place a.0) 0 }
{
    store[action_place(a) + NAME_LENGTH_COLUMN]
}

// Where a step begins: its source, then its action, then its target.
pub fn step_place(j: Step) -> usize
    ensures { result ≡ step_place j.0 }
{
    STEPS_BEGIN + STEP_SIZE * usize::from(j.0)
}

pub fn source(store: &[u16], j: Step) -> State
    requires { (store_length ≤ length store.now) × (j.0 < step_limit) }
    ensures { result ≡ (step_at store.now j.0).source }
{
    State(store[step_place(j)])
}

pub fn action(store: &[u16], j: Step) -> Action
    requires { (store_length ≤ length store.now) × (j.0 < step_limit) }
    ensures { result ≡ (step_at store.now j.0).action }
{
    Action(store[step_place(j) + ACTION_COLUMN])
}

pub fn target(store: &[u16], j: Step) -> State
    requires { (store_length ≤ length store.now) × (j.0 < step_limit) }
    ensures { result ≡ (step_at store.now j.0).target }
{
    State(store[step_place(j) + TARGET_COLUMN])
}

// The whole of a step.
pub fn step_line(store: &[u16], j: Step) -> StepLine
    requires { (store_length ≤ length store.now) × (j.0 < step_limit) }
    ensures { result ≡ step_at store.now j.0 }
{
    StepLine {
        source: source(store, j),
        action: action(store, j),
        target: target(store, j),
    }
}

// How many extra starts there are.
pub fn extra_count(store: &[u16]) -> u16
    requires { store_length ≤ length store.now }
    ensures { result ≡ extra_count_at store.now }
{
    store[EXTRA_COUNT_PLACE]
}

// Where extra start i stands.
pub fn extra_place(i: u16) -> usize
    ensures { result ≡ extra_place i }
{
    EXTRA_BEGIN + usize::from(i)
}

// Extra start i.
pub fn extra_start(store: &[u16], i: u16) -> State
    requires { (store_length ≤ length store.now) × (i < extra_limit) }
    ensures { result.0 ≡ extra_start_at store.now i }
{
    State(store[extra_place(i)])
}
