// The sets of a pool, found by their slots.
ghost use Rattle.std.specs.Prelude.{IfSome, ◌⊎◌, ◌≡◌, ℕ, ◌+◌, ◌≤◌, ◌<◌, get_or};
ghost use Rattle.lts.specs.Weak.{silent_label};
ghost use Rattle.text.specs.Decides.{Decides};
ghost use Rattle.text.specs.Limits.{state_limit, action_limit};
ghost use Rattle.sets.specs.Inner.Sets.{Member};
ghost use Rattle.sets.specs.Inner.SetValues.{SetOf};
ghost use Rattle.held.specs.Held.{slot_rows, pool_sets, row_set, slot_place, target_row, HeldAt};
ghost use Rattle.held.specs.Inner.Slots.{seen_length, Pooled, FreeFrom, Separate, Shared, MemberAdded};
ghost use Rattle.held.specs.Inner.Slots.{RowsKept, RowHeld, SetHeld};

use crate::{POOL_LENGTH, POOL_SETS, SEEN_LENGTH, SLOTS_LENGTH};
use sets::SETS_LENGTH;
use sets::set::{Set, insert, is_empty, put_set, set_at};
use text::State;
use text::limits::{ACTION_LIMIT, ROW, STATE_LIMIT};

// The row of the targets of moves with the label a.
pub fn target_row(a: u16) -> u16
    requires { (a < action_limit) ⊎ (a ≡ silent_label) }
    ensures { (result ≡ target_row a) × (result + 1 < slot_rows) }
{
    if a < ACTION_LIMIT {
        return 2 * a;
    }
    2 * ACTION_LIMIT
}

// The slot of p in a row.
fn slot_place(row: u16, p: State) -> usize
    requires { (row < slot_rows) × (p.0 < state_limit) }
    ensures { result ≡ slot_place row p.0 }
{
    ROW * row as usize + p.0 as usize
}

// The set of p in a row.
#[inline]
pub fn held(slots: &[u16; SLOTS_LENGTH], pool: &[u64; POOL_LENGTH], row: u16, p: State) -> Set
    requires { (row < slot_rows) × (p.0 < state_limit) × ((i : ℕ) → get_or slots.now i 0 < pool_sets) }
    ensures { SetOf (HeldAt slots.now pool.now row p.0) result }
{
    let at = slot_place(row, p);
    set_at(pool, slots[at] as usize)
}

// The number, in the pool, of the set of a row's states.
fn row_set(row: u16) -> usize
    requires { row < slot_rows }
    ensures { result ≡ row_set row }
{
    POOL_SETS as usize + row as usize
}

// The states that have a set of their own in a row.
#[inline]
pub fn occupied(pool: &[u64; POOL_LENGTH], row: u16) -> Set
    requires { row < slot_rows }
    ensures { SetOf (Member pool.now (row_set row)) result }
{
    set_at(pool, row_set(row))
}

// Whether p and q have the same slot in a row, and so the same set.
#[inline]
pub fn same_slot(slots: &[u16; SLOTS_LENGTH], row: u16, p: State, q: State) -> bool
    requires { (row < slot_rows) × (p.0 < state_limit) × (q.0 < state_limit) }
    ensures { Decides result (get_or slots.now (slot_place row p.0) 0
        ≡ get_or slots.now (slot_place row q.0) 0) }
{
    slots[slot_place(row, p)] == slots[slot_place(row, q)]
}

// The place in `seen` of a set, by all its bits: the second word comes onto the first, turned by 3, and then higher
// bits come onto lower ones.
fn seen_place(s: Set) -> usize
    ensures { result < seen_length }
{
    let words = s.0 ^ (s.1 >> 3) ^ (s.1 << 61);
    let halves = words ^ (words >> 32);
    let quarters = halves ^ (halves >> 17);
    let bits = quarters ^ (quarters >> 9);
    bits as usize % SEEN_LENGTH
}

// The number of a set that is s, if it was seen. What `seen` says is tested, so it may be anything.
fn find_same(pool: &[u64; POOL_LENGTH], s: Set, used: u16, seen: &[u16; SEEN_LENGTH]) -> Option<u16>
    requires { used ≤ pool_sets }
    ensures { IfSome result (λ number. (number < used) × SetOf (Member pool.now number) s) }
{
    let number = seen[seen_place(s)];
    if used <= number {
        return None;
    }
    let there = set_at(pool, number as usize);
    if there != s {
        return None;
    }
    Some(number)
}

// Yields the number of a set that is s: one that was seen, or else the first free one, which becomes s.
fn share(s: Set, used: u16, pool: &mut [u64; POOL_LENGTH], seen: &mut [u16; SEEN_LENGTH]) -> u16
    requires { used < pool_sets }
    ensures { Shared used result s pool.old pool.new }
{
    if let Some(number) = find_same(pool, s, used, seen) {
        return number;
    }
    seen[seen_place(s)] = used;
    put_set(pool, used as usize, s);
    used
}

// Gives p in a row, where it has none, a set for s, and yields the next free set; no members need none.
fn hold_set(
    row: u16,
    p: State,
    s: Set,
    used: u16,
    slots: &mut [u16; SLOTS_LENGTH],
    pool: &mut [u64; POOL_LENGTH],
    seen: &mut [u16; SEEN_LENGTH],
) -> u16
    requires row_lt_slot_rows { (row < slot_rows) × (p.0 < state_limit) × (used < pool_sets) }
    requires pooled { Pooled used slots.old pool.old × FreeFrom (slot_place row p.0) slots.old }
    ensures set_held { SetHeld row p.0 s slots.old pool.old slots.new
        pool.new }
    ensures lower_bound { (used ≤ result) × (result ≤ used + 1) × Pooled result slots.new pool.new
        × FreeFrom (slot_place row p.0 + 1) slots.new }
{
    if is_empty(s) {
        return used;
    }
    let number = share(s, used, pool, seen);
    slots[slot_place(row, p)] = number;
    insert(pool, row_set(row), p.0);
    if number < used {
        return used;
    }
    used + 1
}

// Gives each state in a row, the first without sets, its set of a list. Yields the next free set.
pub fn hold_row(
    sets: &[u64; SETS_LENGTH],
    row: u16,
    used: u16,
    slots: &mut [u16; SLOTS_LENGTH],
    pool: &mut [u64; POOL_LENGTH],
    seen: &mut [u16; SEEN_LENGTH],
) -> u16
    requires { (row < slot_rows) × (used + state_limit ≤ pool_sets) × Pooled used slots.old pool.old
        × FreeFrom (slot_place row 0) slots.old }
    ensures row_held { RowHeld sets.now row state_limit slots.new pool.new }
    ensures rows_kept { RowsKept row slots.old pool.old slots.new pool.new }
    ensures lower_bound { (used ≤ result) × (result ≤ used + state_limit) × Pooled result slots.new pool.new
        × FreeFrom (slot_place (row + 1) 0) slots.new }
{
    let mut next = used;
    for p in 0..STATE_LIMIT {
        let s = set_at(sets, p as usize);
        next = hold_set(row, State(p), s, next, slots, pool, seen);
    }
    next
}

// Adds x to the set of p in a row, in a free set if it has none. Yields the next free set.
pub fn add_held(
    row: u16,
    p: State,
    x: State,
    used: u16,
    slots: &mut [u16; SLOTS_LENGTH],
    pool: &mut [u64; POOL_LENGTH],
) -> u16
    requires row_lt_slot_rows { (row < slot_rows) × (p.0 < state_limit) × (x.0 < state_limit) × (used < pool_sets) }
    requires separate { Separate used slots.old pool.old }
    ensures member_added { MemberAdded row p.0 x.0 slots.old pool.old slots.new
        pool.new }
    ensures lower_bound { (used ≤ result) × (result ≤ used + 1) × Separate result slots.new pool.new }
{
    let at = slot_place(row, p);
    let slot = slots[at] as usize;
    if slot == 0 {
        slots[at] = used;
        insert(pool, used as usize, x.0);
        insert(pool, row_set(row), p.0);
        return used + 1;
    }
    insert(pool, slot, x.0);
    used
}
