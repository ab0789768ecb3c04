// The openings of the second side: as in the entry of the two states the other way round.
ghost use Rattle.std.specs.Prelude.{◌≤◌, ◌<◌, length};
ghost use Rattle.text.specs.Limits.{state_limit, table_length, pair_place, book_length};
ghost use Rattle.weak_books.specs.Inner.Turned.{PairTurned, AllTurned};

use books::entry::{Entry, Side, entry_at, put_entry};
use ranking::table::{pair_place, rank_at};
use text::State;

// Writes the entry of p and q, if their rank is above 0 and there is none.
fn turn_pair(table: &[u8], p: State, q: State, book: &mut [u8])
    requires { (p.0 < state_limit) × (q.0 < state_limit) × (table_length ≤ length table.now)
        × (book_length ≤ length book.old) }
    ensures { PairTurned table.now p.0 q.0 book.old book.new }
{
    let depth = rank_at(table, p, q);
    if depth == 0 {
        return;
    }
    if entry_at(book, pair_place(p, q)).side != 0 {
        return;
    }
    let back = entry_at(book, pair_place(q, p));
    let entry = Entry {
        side: Side::Second as u8,
        depth,
        ..back
    };
    put_entry(p, q, entry, book);
}

// The same of p and each state.
fn turn_row(n: u16, table: &[u8], p: State, book: &mut [u8])
    requires { (n ≤ state_limit) × (p.0 < n) × (table_length ≤ length table.now)
        × (book_length ≤ length book.old) }
    ensures { AllTurned n table.now (pair_place p.0 0) (pair_place p.0 n) book.old
        book.new }
{
    for q in 0..n {
        turn_pair(table, p, State(q), book);
    }
}

// The same of each two states.
pub fn turn_rows(n: u16, table: &[u8], book: &mut [u8])
    requires { (n ≤ state_limit) × (table_length ≤ length table.now) × (book_length ≤ length book.old) }
    ensures { AllTurned n table.now 0 (pair_place n 0) book.old book.new }
{
    for p in 0..n {
        turn_row(n, table, State(p), book);
    }
}
