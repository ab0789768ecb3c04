// The table of ranks from the splitting tree of a partition: each class but class 0 was divided off another one, its
// origin, in a round.

#![tactic(auto)]

pub mod filling;
pub mod rows;

ghost use Rattle.std.specs.Prelude.{◌≤◌};
ghost use Rattle.text.specs.Limits.{state_limit};
ghost use Rattle.tree.specs.Inner.Rows.{RoundNoted};

use text::limits::ROW;

// A loop and no `fill`: there may be no such classes, with `from` above `to`, and then no part of the list is named.
// Notes the round k for the classes from `from` up to `to`.
pub fn note_round(when: &mut [u8; ROW], from: u16, to: u16, k: u8)
    requires { to ≤ state_limit }
    ensures { RoundNoted from to k when.old when.new }
{
    for c in from..to {
        when[c as usize] = k;
    }
}
