// The search for an opening: a move of one state, to which each answer of the other leads to a lower rank.
ghost use Rattle.std.specs.Prelude.{◌+◌, ◌≤◌, ◌<◌, length, get_or, MatchOption};
ghost use Rattle.text.specs.Decides.{Decides};
ghost use Rattle.text.specs.Limits.{state_limit, action_limit, table_length};
ghost use Rattle.by_state.specs.MoveList.{Listed};
ghost use Rattle.books.specs.Inner.Groups.{Indexed};
ghost use Rattle.ranking.specs.Inner.LowerRanks.{RankIn};
ghost use Rattle.books.specs.Inner.Openings.{LowerAnswers, FirstOpening};

use crate::groups::{group_from, group_to};
use crate::listed::IndexedMoves;
use by_state::lists::{moves_from, moves_to};
use ranking::table::rank_at;
use text::{Action, State};

// Whether the rank of p and q is above 0 and below the depth.
fn is_lower_rank(table: &[u8], p: State, q: State, depth: u8) -> bool
    requires { (p.0 < state_limit) × (q.0 < state_limit) × (table_length ≤ length table.now) }
    ensures { Decides result (RankIn table.now depth p.0 q.0) }
{
    let rank = rank_at(table, p, q);
    0 < rank && rank < depth
}

// Whether each answer of q with the action a leads, beside t, to a rank above 0 and below the depth.
fn answers_lower_ranks(
    indexed: IndexedMoves,
    table: &[u8],
    q: State,
    a: Action,
    t: State,
    depth: u8,
) -> bool
    requires q_lt_state_limit { (q.0 < state_limit) × (a.0 < action_limit) × (t.0 < state_limit) }
    requires table_length_in_bounds { table_length ≤ length table.now }
    ensures { Decides result (LowerAnswers (Indexed indexed.entry.groups.now indexed.entry.targets.now)
        table.now depth q.0 a.0 t.0) }
{
    for i in group_from(indexed.groups, q, a)..group_to(indexed.groups, q, a) {
        if !is_lower_rank(table, t, State(indexed.targets[i]), depth) {
            return false;
        }
    }
    true
}

// The place of the first move of p whose answers by q all lead to a rank above 0 and below the depth.
pub fn first_opening(
    indexed: IndexedMoves,
    table: &[u8],
    p: State,
    q: State,
    depth: u8,
) -> Option<usize>
    requires { (p.0 < indexed.n) × (q.0 < indexed.n)
        × (table_length ≤ length table.now) }
    ensures { let moves = indexed.entry in
        let Found = FirstOpening (Listed moves.n moves.first.now moves.actions.now moves.targets.now)
        moves.actions.now moves.targets.now table.now depth q.0
        (get_or moves.first.now p.0 0) (get_or moves.first.now (p.0 + 1) 0) in
        MatchOption result (Found (get_or moves.first.now (p.0 + 1) 0))
        (λ at. (at < get_or moves.first.now (p.0 + 1) 0) × Found at) }
{
    for i in moves_from(indexed.first, p)..moves_to(indexed.first, p) {
        let a = Action(indexed.actions[i]);
        let t = State(indexed.targets[i]);
        if answers_lower_ranks(indexed, table, q, a, t, depth) {
            return Some(i);
        }
    }
    None
}
