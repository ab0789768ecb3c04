// What a round writes into the table: its number, for each two states that it separates. One of them changed its class.
ghost use Rattle.std.specs.Prelude.{ℕ, ◌≤◌, ◌<◌, length, get_or};
ghost use Rattle.text.specs.Limits.{state_limit, table_length};
ghost use Rattle.ranking.specs.Inner.TableWrites.{Written, SeparationWritten, RowWritten, RowsWritten};

use crate::table::pair_place;
use by_state::lists::class_at;
use text::State;
use text::limits::ROW;

// Writes the round for p and q both ways, if it separates them.
fn write_pair(
    table: &mut [u8],
    class: &[u16; ROW],
    next: &[u16; ROW],
    round: u8,
    p: State,
    q: State,
)
    requires table_length_in_bounds { table_length ≤ length table.old }
    requires p_lt_state_limit { (p.0 < state_limit) × (q.0 < state_limit) }
    ensures by_index { (n : ℕ) → n ≤ state_limit → p.0 < n → q.0 < n → Written n class.now
        next.now round table.old table.new }
    ensures separation_written { SeparationWritten class.now next.now round table.new p.0
        q.0 }
{
    let a = class_at(class, p);
    let b = class_at(class, q);
    if a != b {
        return;
    }
    let c = class_at(next, p);
    let d = class_at(next, q);
    if c == d {
        return;
    }
    let at = pair_place(p, q);
    let back = pair_place(q, p);
    table[at] = round;
    table[back] = round;
}

// Writes the round for p and each state that it separates from p.
fn write_row(table: &mut [u8], class: &[u16; ROW], next: &[u16; ROW], round: u8, n: u16, p: State)
    requires table_length_in_bounds { table_length ≤ length table.old }
    requires n_le_state_limit { (n ≤ state_limit) × (p.0 < n) }
    ensures written { Written n class.now next.now round table.old
        table.new }
    ensures row_written { RowWritten class.now next.now round table.new p.0 n }
{
    for q in 0..n {
        write_pair(table, class, next, round, p, State(q));
    }
}

// Writes the rows of the listed states.
pub fn write_rows(
    table: &mut [u8],
    class: &[u16; ROW],
    next: &[u16; ROW],
    round: u8,
    n: u16,
    list: &[u16; ROW],
    count: u16,
)
    requires table_length_in_bounds { table_length ≤ length table.old }
    requires n_le_state_limit { (n ≤ state_limit) × (count ≤ state_limit) × ((i : ℕ) → i < count → get_or list.now i 0 < n) }
    ensures written { Written n class.now next.now round table.old
        table.new }
    ensures rows_written { RowsWritten class.now next.now round table.new
        list.now count n }
{
    for i in 0..count {
        write_row(table, class, next, round, n, State(list[i as usize]));
    }
}
