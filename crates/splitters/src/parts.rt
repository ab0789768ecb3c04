// The classes of states on their way through the rounds.
ghost use Rattle.std.specs.Prelude.{◌≤◌};
ghost use Rattle.text.specs.Limits.{state_limit};
ghost use Rattle.splitters.specs.Inner.Partition.{Partition};

use sets::SETS_LENGTH;
use sets::set::Set;
use text::limits::ROW;

// A partition of n states: how many classes there are, the states whose class has another state, the number of each
// state's class, each class as a set, and what each class was divided off.
#[derive(Clone, Copy)]
pub struct Parts {
    pub n: u16,
    pub classes: u16,
    pub together: Set,
    pub class: [u16; ROW],
    pub members: [u64; SETS_LENGTH],
    pub origin: [u16; ROW],
    pub ghost states_le: { n ≤ state_limit },
    pub ghost partition: { ∥ Partition n class members classes together ∥₁ },
}
