// An opening of a state: a move with a label to a target.
ghost use Rattle.std.specs.Prelude.{◌<◌};
ghost use Rattle.text.specs.Limits.{state_limit};
ghost use Rattle.held.specs.HeldTests.{label_limit};

use text::{Action, State};

#[derive(Clone, Copy)]
pub struct Opening {
    pub label: Action,
    pub target: State,
    pub ghost label_lt: { label.0 < label_limit },
    pub ghost target_lt: { target.0 < state_limit },
}
