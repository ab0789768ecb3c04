// Moves by state and action. Those of a state with one action are a group: they stand side by side, for the moves of a
// state are listed by action.
ghost use Rattle.std.specs.Prelude.{◌≡◌, ◌+◌, ◌≤◌, ◌<◌, length, get_or};
ghost use Rattle.text.specs.Limits.{state_limit, action_limit, group_place, groups_length};
ghost use Rattle.books.specs.Inner.Groups.{IndexedTo, Given, GroupsAt, GroupTargets};

use crate::listed::{IndexedMoves, ListedMoves};
use by_state::lists::{moves_from, moves_to};
use text::limits::{ACTION_LIMIT, GROUPS_LENGTH};
use text::{Action, State};

// The number of the group of p and a.
fn group_place(p: State, a: Action) -> usize
    requires { (p.0 < state_limit) × (a.0 < action_limit) }
    ensures { (result ≡ group_place p.0 a.0) × (result + 1 < groups_length) }
{
    usize::from(ACTION_LIMIT) * usize::from(p.0) + usize::from(a.0)
}

// Where the moves of p with the action a begin in the lists.
pub fn group_from(groups: &[u16; GROUPS_LENGTH], p: State, a: Action) -> usize
    requires { (p.0 < state_limit) × (a.0 < action_limit) }
    ensures { result ≡ get_or groups.now (group_place p.0 a.0) 0 }
{
    usize::from(groups[group_place(p, a)])
}

// Where they end.
pub fn group_to(groups: &[u16; GROUPS_LENGTH], p: State, a: Action) -> usize
    requires { (p.0 < state_limit) × (a.0 < action_limit) }
    ensures { result ≡ get_or groups.now (group_place p.0 a.0 + 1) 0 }
{
    usize::from(groups[group_place(p, a) + 1])
}

// The targets of the moves of p with the action a, as a list. Walking the places between the two bounds is faster.
pub fn group_targets<'a>(indexed: IndexedMoves<'a>, p: State, a: Action) -> &'a [u16]
    requires { (p.0 < state_limit) × (a.0 < action_limit) }
    ensures { GroupTargets indexed.entry.groups.now indexed.entry.targets.now p.0 a.0 result.now }
{
    let from = group_from(indexed.groups, p, a);
    let to = group_to(indexed.groups, p, a);
    if to < from {
        // The bounds of a group without moves may stand in any order.
        return &[];
    }
    let targets = indexed.targets;
    &targets[from..to]
}

// Gives the places from `from` up to `to` the value, and yields the next place.
fn give(groups: &mut [u16], from: usize, to: usize, value: u16) -> usize
    requires { to ≤ length groups.old }
    ensures { Given from to value result groups.old groups.new }
{
    if to <= from {
        return from;
    }
    groups[from..to].fill(value);
    to
}

// Writes where the groups from group `from` on begin, up to the last one of p that has a move; yields the group after
// it.
fn index_state(listed: &ListedMoves, p: State, from: usize, groups: &mut [u16]) -> usize
    requires p_lt_n { (p.0 < listed.now.n) × (groups_length ≤ length groups.old) }
    requires indexed_to { IndexedTo listed.now.n listed.now.first listed.now.actions groups.old from
        (get_or listed.now.first p.0 0) }
    ensures { IndexedTo listed.now.n listed.now.first listed.now.actions groups.new result
        (get_or listed.now.first (p.0 + 1) 0) }
{
    let mut k = from;
    for i in moves_from(&listed.first, p)..moves_to(&listed.first, p) {
        let group = group_place(p, Action(listed.actions[i]));
        k = give(groups, k, group + 1, i as u16);
    }
    k
}

// Writes where the moves of each state with each action begin, and where the last ones end.
pub fn index_moves(listed: &ListedMoves, groups: &mut [u16])
    requires { groups_length ≤ length groups.old }
    ensures { GroupsAt listed.now.n listed.now.first listed.now.actions groups.new }
{
    let mut k = 0;
    for p in 0..listed.n {
        k = index_state(listed, State(p), k, groups);
    }
    let last = moves_to(&listed.first, State(listed.n - 1));
    give(groups, k, GROUPS_LENGTH, last as u16);
}
