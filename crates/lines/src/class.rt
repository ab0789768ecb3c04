// The class of a state: the lowest state of rank 0 to it.
ghost use Rattle.std.specs.Prelude.{◌≡◌, ◌≤◌, ◌<◌, length, get_or};
ghost use Rattle.text.specs.Limits.{state_limit};
ghost use Rattle.text.specs.Limits.{table_length, pair_place};
ghost use Rattle.lines.specs.Inner.Entries.{LowestZero};

use ranking::table::rank_at;
use text::State;

// Looked up in p's row of the table, which has 0 at p itself.
pub fn class_of(table: &[u8], p: State) -> State
    requires p_lt_state_limit { (p.0 < state_limit) × (table_length ≤ length table.now) }
    requires p_value { get_or table.now (pair_place p.0 p.0) 0 ≡ 0 }
    ensures { LowestZero table.now p.0 result.0 }
{
    let zero = (0..p.0).find(|&q| rank_at(table, p, State(q)) == 0);
    State(zero.unwrap_or(p.0))
}
