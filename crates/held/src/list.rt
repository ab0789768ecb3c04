// Moves that are held as sets, as they are lent.
ghost use Rattle.held.specs.Held.{HeldList};

use crate::{LABEL_COUNT, POOL_LENGTH, SLOTS_LENGTH};

// The moves of n states, held as sets: the first `count` numbers of the list are their labels, and the sets of a label
// stand in the pool, found by their slots.
#[derive(Clone, Copy)]
pub struct HeldMoves<'a> {
    pub n: u16,
    pub labels: &'a [u16; LABEL_COUNT],
    pub count: u16,
    pub slots: &'a [u16; SLOTS_LENGTH],
    pub pool: &'a [u64; POOL_LENGTH],
    pub ghost held: { ∥ HeldList n labels.now count slots.now pool.now ∥₁ },
}
