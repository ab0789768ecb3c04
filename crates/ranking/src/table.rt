// The table of ranks: one entry for each two states, row by row.
ghost use Rattle.std.specs.Prelude.{◌≡◌, ◌≤◌, ◌<◌, length, get_or};
ghost use Rattle.text.specs.Limits.{state_limit, table_length, pair_place};
ghost use Rattle.text.specs.Inner.Clearing.{Cleared};

use text::State;
use text::limits::ROW;

// The place of the entry of p and q.
pub fn pair_place(p: State, q: State) -> usize
    requires { (p.0 < state_limit) × (q.0 < state_limit) }
    ensures { result ≡ pair_place p.0 q.0 }
{
    let row = p.0 as usize;
    let column = q.0 as usize;
    ROW * row + column
}

// The rank of p and q.
pub fn rank_at(table: &[u8], p: State, q: State) -> u8
    requires p_lt_state_limit { (p.0 < state_limit) × (q.0 < state_limit) }
    requires table_length_in_bounds { table_length ≤ length table.now }
    ensures { result ≡ get_or table.now (pair_place p.0 q.0) 0 }
{
    let at = pair_place(p, q);
    table[at]
}

// Makes the first n bytes of a table or a book 0.
pub fn clear(list: &mut [u8], n: usize)
    requires { n ≤ length list.old }
    ensures { Cleared 0 n list.old list.new }
{
    list[..n].fill(0);
}
