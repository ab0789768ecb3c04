// The states that the moves of each state lead to, by label.
ghost use Rattle.std.specs.Prelude.{◌≡◌, ◌≤◌, ◌<◌, length};
ghost use Rattle.lts.specs.Weak.{silent_label};
ghost use Rattle.text.specs.Limits.{state_limit, action_limit};
ghost use Rattle.text.specs.Lists.{Past};
ghost use Rattle.silent.specs.Steps.{label_moves};
ghost use Rattle.silent.specs.Inner.Targets.{OwnNumbers, Targets};

use crate::keys::{low_keys, silent_keys};
use crate::steps::LabelSteps;
use sets::SETS_LENGTH;
use text::Action;
use text::limits::ROW;

// Gives each of n states a class of its own, and changes nothing behind them.
pub fn own_numbers(n: u16, class: &mut [u16])
    requires { n ≤ length class.old }
    ensures { OwnNumbers n class.new × Past n class.old class.new }
{
    for p in 0..n {
        class[p as usize] = p;
    }
}

// The targets of silent moves.
pub fn silent_targets(steps: LabelSteps, own: &[u16; ROW], sets: &mut [u64; SETS_LENGTH])
    requires own_numbers { OwnNumbers steps.n own.now }
    ensures { Targets (label_moves steps.entry) silent_label
        sets.new }
{
    silent_keys(steps, own, sets);
}

// The targets of the low moves with an action, from those of the silent moves.
pub fn low_targets(
    steps: LabelSteps,
    own: &[u16; ROW],
    silent: &[u64; SETS_LENGTH],
    a: Action,
    sets: &mut [u64; SETS_LENGTH],
)
    requires own_numbers { OwnNumbers steps.n own.now }
    requires a_lt_action_limit { a.0 < action_limit }
    requires targets { Targets (label_moves steps) silent_label silent.now }
    ensures { Targets (label_moves steps.entry) a.0
        sets.new }
{
    low_keys(steps, silent, own, silent, a, sets);
}
