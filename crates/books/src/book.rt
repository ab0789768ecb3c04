// The book of the moves' ranks: for each two states of a rank above 0 the first opening whose answers all lead to a
// lower rank.
ghost use Rattle.std.specs.Prelude.{◌≡◌, ◌≤◌, ◌<◌, length, get_or};
ghost use Rattle.text.specs.Limits.{state_limit, table_length, pair_place, book_length};
ghost use Rattle.by_state.specs.MoveList.{Listed, Ordered};
ghost use Rattle.ranking.specs.Table.{Ranks};
ghost use Rattle.lts.specs.Book.{no_entry};
ghost use Rattle.books.specs.Books.{entry_number, BookFilled};
ghost use Rattle.books.specs.Inner.Filling.{EntryWritten, PairFilled, RowFilled};
ghost use Rattle.books.specs.Inner.Filling.{EntriesFilled, RowEmpty, BookEmpty};
ghost use Rattle.books.specs.Inner.Sides.{side_number};

use crate::entry::{Entry, Side, put_entry};
use crate::groups::index_moves;
use crate::listed::{IndexedMoves, ListedMoves};
use crate::openings::first_opening;
use ranking::table::{clear, rank_at};
use text::State;
use text::limits::{BOOK_LENGTH, GROUPS_LENGTH};

// Writes the entry of p and q where the side opens with the move at place i.
fn write_entry(
    indexed: IndexedMoves,
    p: State,
    q: State,
    side: Side,
    i: usize,
    depth: u8,
    book: &mut [u8],
)
    requires { (p.0 < indexed.n) × (q.0 < indexed.n) × (i < get_or indexed.first.now indexed.n 0)
        × (book_length ≤ length book.old) }
    ensures { EntryWritten (pair_place p.0 q.0)
        (record {
          side = side_number side;
          action = get_or indexed.entry.actions.now i 0;
          target = get_or indexed.entry.targets.now i 0;
          depth = depth;
        })
        book.old book.new }
{
    let entry = Entry {
        side: side as u8,
        action: indexed.actions[i] as u8,
        target: indexed.targets[i] as u8,
        depth,
    };
    put_entry(p, q, entry, book);
}

// Writes the entry of p and q, if their rank is above 0.
fn fill_pair(indexed: IndexedMoves, table: &[u8], p: State, q: State, book: &mut [u8])
    requires ordered { Ordered indexed.n indexed.first.now indexed.actions.now indexed.targets.now }
    requires ranks { let moves = indexed in
        Ranks (Listed moves.n moves.first.now moves.actions.now moves.targets.now) moves.n table.now
        × (table_length ≤ length table.now) }
    requires p_lt_n { (p.0 < indexed.n) × (q.0 < indexed.n)
        × (book_length ≤ length book.old) }
    requires q_value { entry_number book.old (pair_place p.0 q.0) ≡ no_entry }
    ensures { let moves = indexed.entry in
        PairFilled (Listed moves.n moves.first.now moves.actions.now moves.targets.now) p.0 q.0 book.old book.new }
{
    let depth = rank_at(table, p, q);
    if depth == 0 {
        return;
    }
    if let Some(i) = first_opening(indexed, table, p, q, depth) {
        write_entry(indexed, p, q, Side::First, i, depth, book);
        return;
    }
    // One of the two sides has such an opening.
    let j = first_opening(indexed, table, q, p, depth).unwrap();
    write_entry(indexed, p, q, Side::Second, j, depth, book);
}

// Writes the entries of p and each state.
fn fill_row(indexed: IndexedMoves, table: &[u8], p: State, book: &mut [u8])
    requires ordered { Ordered indexed.n indexed.first.now indexed.actions.now indexed.targets.now }
    requires ranks { let moves = indexed in
        Ranks (Listed moves.n moves.first.now moves.actions.now moves.targets.now) moves.n table.now
        × (table_length ≤ length table.now) }
    requires p_lt_n { (p.0 < indexed.n) × (book_length ≤ length book.old) }
    requires row_empty { RowEmpty p.0 indexed.n book.old }
    ensures { let moves = indexed.entry in
        RowFilled (Listed moves.n moves.first.now moves.actions.now moves.targets.now) p.0 moves.n book.old book.new }
{
    for q in 0..indexed.n {
        fill_pair(indexed, table, p, State(q), book);
    }
}

// Writes the entries of each two states.
fn fill_rows(indexed: IndexedMoves, table: &[u8], book: &mut [u8])
    requires ordered { Ordered indexed.n indexed.first.now indexed.actions.now indexed.targets.now }
    requires ranks { let moves = indexed in
        Ranks (Listed moves.n moves.first.now moves.actions.now moves.targets.now) moves.n table.now
        × (table_length ≤ length table.now) }
    requires book_length_in_bounds { book_length ≤ length book.old }
    requires book_empty { BookEmpty book.old }
    ensures { let moves = indexed.entry in
        EntriesFilled (Listed moves.n moves.first.now moves.actions.now moves.targets.now) moves.n moves.n book.old book.new }
{
    for p in 0..indexed.n {
        fill_row(indexed, table, State(p), book);
    }
}

// Fills the book of the moves, whose ranks the table has.
pub fn fill_book(moves: &ListedMoves, table: &[u8], book: &mut [u8])
    requires ranks { Ranks (Listed moves.now.n moves.now.first moves.now.actions moves.now.targets) moves.now.n
        table.now × (table_length ≤ length table.now) }
    requires book_length_in_bounds { book_length ≤ length book.old }
    ensures { BookFilled (Listed moves.now.n moves.now.first moves.now.actions moves.now.targets) moves.now.n
        book.old book.new }
{
    let mut groups = [0u16; GROUPS_LENGTH];
    index_moves(moves, &mut groups);
    clear(book, BOOK_LENGTH);
    let indexed = IndexedMoves {
        n: moves.n,
        first: &moves.first,
        actions: &moves.actions,
        targets: &moves.targets,
        groups: &groups,
    };
    fill_rows(indexed, table, book);
}
