// Sets of numbers below 128 as the bits of two words, in lists or as values.

#![tactic(auto)]

pub mod set;

ghost use Rattle.std.specs.Prelude.{not, ◌≡◌, ◌+◌, ◌*◌, ◌≤◌, ◌<◌, length};
ghost use Rattle.text.specs.Decides.{Decides};
ghost use Rattle.text.specs.Limits.{state_limit};
ghost use Rattle.sets.specs.Inner.Sets.{sets_length, Member, Empty, Joined};
ghost use Rattle.sets.specs.Inner.SetValues.{SetOf, InSome};

use crate::set::{Set, either, insert, none, set_at};
use text::State;
use text::limits::ROW;

// Two words for each set of a list that has one for each state.
pub const SETS_LENGTH: usize = 2 * ROW;

// The place of the first word of set k.
fn word_place(k: State) -> usize
    requires { k.0 < state_limit }
    ensures { result ≡ 2 * k.0 }
{
    2 * k.0 as usize
}

// Empties all sets.
pub fn clear_sets(sets: &mut [u64; SETS_LENGTH])
    ensures { Empty sets.new }
{
    *sets = [0u64; SETS_LENGTH];
}

// Adds x to set k.
pub fn add_member(sets: &mut [u64], k: State, x: u16)
    requires sets_length_in_bounds { sets_length ≤ length sets.old }
    requires k_lt_state_limit { (k.0 < state_limit) × (x < state_limit) }
    ensures { Joined k.0 (λ y. y ≡ x) sets.old sets.new }
{
    insert(sets, k.0 as usize, x);
}

// Adds the members of set j of other sets to set k.
pub fn join(sets: &mut [u64], k: State, others: &[u64; SETS_LENGTH], j: State)
    requires sets_length_in_bounds { sets_length ≤ length sets.old }
    requires k_lt_state_limit { (k.0 < state_limit) × (j.0 < state_limit) }
    ensures { Joined k.0 (Member others.now j.0) sets.old sets.new }
{
    let at = word_place(k);
    let of = word_place(j);
    sets[at] |= others[of];
    sets[at + 1] |= others[of + 1];
}

// Adds the members of set j to set k. Yields whether set k has grown.
pub fn spread(sets: &mut [u64], k: State, j: State) -> bool
    requires sets_length_in_bounds { sets_length ≤ length sets.old }
    requires k_lt_state_limit { (k.0 < state_limit) × (j.0 < state_limit) }
    ensures joined { Joined k.0 (Member sets.old j.0) sets.old sets.new }
    ensures decides { Decides (not result) (sets.new ≡ sets.old) }
{
    let at = word_place(k);
    let of = word_place(j);
    let old_low = sets[at];
    let old_high = sets[at + 1];
    let low = old_low | sets[of];
    let high = old_high | sets[of + 1];
    if low == old_low {
        if high == old_high {
            return false;
        }
    }
    sets[at] = low;
    sets[at + 1] = high;
    true
}

// What the members of a set have together, in their sets of a list.
pub fn union(sets: &[u64; SETS_LENGTH], of: Set) -> Set
    ensures { SetOf (InSome sets.now of) result }
{
    let mut found = none();
    for q in of {
        found = either(found, set_at(sets, q as usize));
    }
    found
}
