// Moves as lists, and the same with their groups beside them.
ghost use Rattle.by_state.specs.MoveList.{MoveList, Ordered};
ghost use Rattle.books.specs.Inner.Groups.{IndexOf};

use text::limits::{GROUPS_LENGTH, INDEX_LENGTH, MOVES_LENGTH};

// The moves among n states: those of p stand from place first[p] up to place first[p + 1], by action and then by
// target.
#[derive(Drop)]
pub struct ListedMoves {
    pub n: u16,
    pub first: [u16; INDEX_LENGTH],
    pub actions: [u16; MOVES_LENGTH],
    pub targets: [u16; MOVES_LENGTH],
    pub ghost listed: { MoveList n first actions targets },
    pub ghost ordered: { Ordered n first actions targets },
}

// Lists of moves, and where those of each state with each action begin. Whether the lists are in order is not asked.
#[derive(Clone, Copy)]
pub struct IndexedMoves<'a> {
    pub n: u16,
    pub first: &'a [u16; INDEX_LENGTH],
    pub actions: &'a [u16; MOVES_LENGTH],
    pub targets: &'a [u16; MOVES_LENGTH],
    pub groups: &'a [u16; GROUPS_LENGTH],
    pub ghost listed: { MoveList n first.now actions.now targets.now },
    pub ghost grouped: { ∥ IndexOf n first.now actions.now targets.now groups.now ∥₁ },
}
