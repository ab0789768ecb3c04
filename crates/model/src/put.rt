// What makes a store, line by line, in places that hold zeros; `store` reads the same places off.
ghost use Rattle.std.specs.Prelude.{◌∷◌, ◌++◌, ◌≡◌, ◌+◌, ◌≤◌, ◌<◌, length, drop, set};
ghost use Rattle.std.proofs.lemmas.List.Edits.{sets};
ghost use Rattle.text.specs.Limits.{name_limit, action_limit, step_limit, extra_limit, store_length};
ghost use Rattle.text.specs.Limits.{action_place, step_place, extra_count_place, extra_place};
ghost use Rattle.model.specs.Store.{head_row, step_row};

use crate::store::{action_place, extra_place, step_place};
use text::limits::{
    ACTION_COLUMN, ACTION_COUNT_PLACE, EXTRA_COUNT_PLACE, NAME_COLUMN, NAME_LENGTH_COLUMN,
    START_PLACE, STATE_COUNT_PLACE, STEP_COUNT_PLACE, TARGET_COLUMN,
};
use text::{Action, Head, State, Step, StepLine};

// Stores what line 1 states.
pub fn put_head(out: &mut [u16], head: Head)
    requires { store_length ≤ length out.old }
    ensures { out.new ≡ sets out.old 0 (head_row head) }
{
    out[STATE_COUNT_PLACE] = head.states;
    out[ACTION_COUNT_PLACE] = head.actions;
    out[STEP_COUNT_PLACE] = head.steps;
    out[START_PLACE] = head.start.0;
}

// Stores the bytes of a name.
fn put_name(out: &mut [u16], at: usize, name: &[u8])
    requires { at + length name.now ≤ length out.old }
    ensures { out.new ≡ sets out.old at name.now }
{
    for (i, &b) in name.iter().enumerate() {
        out[at + i] = u16::from(b);
    }
}

// Stores an action.
pub fn put_action(out: &mut [u16], a: Action, level: u16, name: &[u8])
    requires { (store_length ≤ length out.old) × (a.0 < action_limit) × (length name.now ≤ name_limit) }
    ensures { out.new
        ≡ sets out.old (action_place a.0) (level ∷ length name.now ∷ name.now) }
{
    let at = action_place(a);
    out[at] = level;
    out[at + NAME_LENGTH_COLUMN] = name.len() as u16;
    put_name(out, at + NAME_COLUMN, name);
}

// Stores extra start i, and that there are i + 1 of them.
pub fn put_extra_start(out: &mut [u16], i: u16, p: State)
    requires { (store_length ≤ length out.old) × (i < extra_limit) }
    ensures { out.new
        ≡ set (set out.old extra_count_place (i + 1)) (extra_place i) p.0 }
{
    out[EXTRA_COUNT_PLACE] = i + 1;
    out[extra_place(i)] = p.0;
}

// Stores a step.
pub fn put_step(out: &mut [u16], j: Step, s: StepLine)
    requires { (store_length ≤ length out.old) × (j.0 < step_limit) }
    ensures { out.new ≡ sets out.old (step_place j.0) (step_row s) }
{
    let at = step_place(j);
    out[at] = s.source.0;
    out[at + ACTION_COLUMN] = s.action.0;
    out[at + TARGET_COLUMN] = s.target.0;
}

// Copies all of a list to the front of another: a store that is made goes out whole.
pub fn copy(from: &[u16], to: &mut [u16])
    requires { length from.now ≤ length to.old }
    ensures { to.new ≡ from.now ++ drop (length from.now) to.old }
{
    to[..from.len()].copy_from_slice(from);
}
