// The entries of a book, four bytes each, and who opens by them.
ghost use Rattle.std.specs.Prelude.{◌≡◌, ◌≤◌, ◌<◌, length, MatchOption};
ghost use Rattle.text.specs.Limits.{state_limit, table_length, pair_place, book_length};
ghost use Rattle.books.specs.Books.{entry_number};
ghost use Rattle.books.specs.Inner.Filling.{EntryWritten};
ghost use Rattle.books.specs.Inner.Sides.{entry_of, NoSide, Turn};

use ranking::table::pair_place;
use text::State;
use text::limits::ENTRY_SIZE;

// The bytes of an entry. One of side 0 is absent.
#[derive(Clone, Copy, PartialEq, Eq)]
pub struct Entry {
    pub side: u8,
    pub action: u8,
    pub target: u8,
    pub depth: u8,
}

// The sides of a play, with their numbers in a book.
#[derive(Clone, Copy, PartialEq, Eq)]
pub enum Side {
    First = 1,
    Second = 2,
}

// Who opens by an entry: a side, its state, and the other's.
#[derive(Clone, Copy, PartialEq, Eq)]
pub struct Opener {
    pub side: Side,
    pub state: State,
    pub other: State,
}

// Entry k.
pub fn entry_at(book: &[u8], k: usize) -> Entry
    requires { (k < table_length) × (book_length ≤ length book.now) }
    ensures { entry_of result ≡ entry_number book.now k }
{
    let at = ENTRY_SIZE * k;
    Entry {
        side: book[at],
        action: book[at + 1],
        target: book[at + 2],
        depth: book[at + 3],
    }
}

// Writes the entry of p and q.
pub fn put_entry(p: State, q: State, entry: Entry, book: &mut [u8])
    requires { (p.0 < state_limit) × (q.0 < state_limit) × (book_length ≤ length book.old) }
    ensures { EntryWritten (pair_place p.0 q.0) (entry_of entry) book.old book.new }
{
    let at = ENTRY_SIZE * pair_place(p, q);
    book[at] = entry.side;
    book[at + 1] = entry.action;
    book[at + 2] = entry.target;
    book[at + 3] = entry.depth;
}

// Who opens by an entry of p and q with this side's number, if it is one.
pub fn who_opens(side: u8, p: State, q: State) -> Option<Opener>
    ensures { MatchOption result (NoSide side) (λ x. Turn side p.0 q.0 x.side x.state.0 x.other.0) }
{
    match side {
        1 => Some(Opener {
            side: Side::First,
            state: p,
            other: q,
        }),
        2 => Some(Opener {
            side: Side::Second,
            state: q,
            other: p,
        }),
        _ => None,
    }
}
