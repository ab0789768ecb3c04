// The sets of moves that are held: what `slots` has for lists, as methods.
ghost use Rattle.std.specs.Prelude.{◌≡◌, ◌<◌, get_or};
ghost use Rattle.text.specs.Decides.{Decides};
ghost use Rattle.text.specs.Limits.{state_limit};
ghost use Rattle.sets.specs.Inner.Sets.{Member};
ghost use Rattle.sets.specs.Inner.SetValues.{SetOf};
ghost use Rattle.held.specs.Held.{slot_rows, row_set, slot_place, HeldAt};

use crate::list::HeldMoves;
use crate::slots;
use sets::set::Set;
use text::State;

impl<'a> HeldMoves<'a> {
    // The set of p in a row.
    pub fn held(self, row: u16, p: State) -> Set
        requires { (row < slot_rows) × (p.0 < state_limit) }
        ensures { SetOf (HeldAt self.entry.slots.now self.entry.pool.now row p.0) result }
    {
        slots::held(self.slots, self.pool, row, p)
    }

    // The states that have a set of their own in a row.
    pub fn occupied(self, row: u16) -> Set
        requires { row < slot_rows }
        ensures { SetOf (Member self.entry.pool.now (row_set row)) result }
    {
        slots::occupied(self.pool, row)
    }

    // Whether p and q have the same slot in a row, and so the same set.
    pub fn same_slot(self, row: u16, p: State, q: State) -> bool
        requires { (row < slot_rows) × (p.0 < state_limit) × (q.0 < state_limit) }
        ensures { Decides result (get_or self.entry.slots.now (slot_place row p.0) 0
            ≡ get_or self.entry.slots.now (slot_place row q.0) 0) }
    {
        slots::same_slot(self.slots, row, p, q)
    }
}
