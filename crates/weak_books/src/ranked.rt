// The states of each rank beside a state, as sets.
ghost use Rattle.std.specs.Prelude.{◌≡◌, ◌≤◌, ◌<◌, length, get_or};
ghost use Rattle.text.specs.Limits.{state_limit, table_length, pair_place};
ghost use Rattle.sets.specs.Inner.Sets.{sets_length, Joined};
ghost use Rattle.weak_books.specs.Inner.RankSets.{AtRank, JoinedBelow};

use ranking::table::rank_at;
use sets::{SETS_LENGTH, add_member, clear_sets, join};
use text::State;

// Adds q to set p, if their rank is r.
fn add_at_rank(table: &[u8], r: u8, p: State, q: State, sets: &mut [u64])
    requires { (p.0 < state_limit) × (q.0 < state_limit) × (table_length ≤ length table.now)
        × (sets_length ≤ length sets.old) }
    ensures { Joined p.0
        (λ x. (x ≡ q.0) × (get_or table.now (pair_place p.0 x) 0 ≡ r)) sets.old
        sets.new }
{
    if rank_at(table, p, q) != r {
        return;
    }
    add_member(sets, p, q.0);
}

// Adds to set p the states whose rank beside p is r.
fn row_at_rank(n: u16, table: &[u8], r: u8, p: State, sets: &mut [u64])
    requires { (n ≤ state_limit) × (p.0 < n) × (table_length ≤ length table.now)
        × (sets_length ≤ length sets.old) }
    ensures { Joined p.0
        (λ x. (x < n) × (get_or table.now (pair_place p.0 x) 0 ≡ r)) sets.old
        sets.new }
{
    for q in 0..n {
        add_at_rank(table, r, p, State(q), sets);
    }
}

// Makes set p the states whose rank beside p is r.
pub fn sets_at_rank(n: u16, table: &[u8], r: u8, sets: &mut [u64; SETS_LENGTH])
    requires { (n ≤ state_limit) × (table_length ≤ length table.now) }
    ensures { AtRank n table.now r n sets.new }
{
    clear_sets(sets);
    for p in 0..n {
        row_at_rank(n, table, r, State(p), sets);
    }
}

// Adds to each of the first n sets the members of the same set of the others.
pub fn join_each(n: u16, sets: &mut [u64], others: &[u64; SETS_LENGTH])
    requires { (n ≤ state_limit) × (sets_length ≤ length sets.old) }
    ensures { JoinedBelow n others.now sets.old sets.new }
{
    for p in 0..n {
        join(sets, State(p), others, State(p));
    }
}
