// The test of a book: whether each of its entries is sound, and which is the first that is not.
ghost use Rattle.std.specs.Prelude.{◌≡◌, ℕ, ◌/◌, ◌%◌, ◌≤◌, ◌<◌, length};
ghost use Rattle.text.specs.Decides.{Decides};
ghost use Rattle.text.specs.Limits.{state_limit, action_limit, table_length, book_length};
ghost use Rattle.lts.specs.Book.{LowerEntry, Opens, SoundAt};
ghost use Rattle.lts.specs.Weak.{silent_label};
ghost use Rattle.books.specs.Books.{book_of};
ghost use Rattle.books.specs.Checks.{checked_outcome, CheckDone, StillMove};
ghost use Rattle.books.specs.Inner.Groups.{Indexed};
ghost use Rattle.books.specs.Inner.Sides.{BySide, side_place, BadTold};
ghost use Rattle.books.specs.Inner.Still.{Still, StaysUnanswered};

use crate::entry::{Entry, Opener, Side, entry_at, who_opens};
use crate::groups::{group_from, group_to, index_moves};
use crate::listed::{IndexedMoves, ListedMoves};
use ranking::table::pair_place;
use text::limits::{ACTION_LIMIT, GROUPS_LENGTH, ROW, SILENT_ACTION, TABLE_LENGTH};
use text::{Action, State};

// The number of an entry that is not sound.
#[derive(Clone, Copy, PartialEq, Eq)]
pub struct BadEntry(pub usize);

// The value of a byte, in the width of states and actions.
pub fn byte_value(b: u8) -> u16
    ensures { result ≡ b }
{
    u16::from(b)
}

// Whether p has a move with the action a to t.
fn has_move(indexed: IndexedMoves, p: State, a: Action, t: State) -> bool
    requires { (p.0 < state_limit) × (a.0 < action_limit) }
    ensures { Decides result (Indexed indexed.entry.groups.now indexed.entry.targets.now p.0 a.0 t.0) }
{
    for i in group_from(indexed.groups, p, a)..group_to(indexed.groups, p, a) {
        if indexed.targets[i] == t.0 {
            return true;
        }
    }
    false
}

// The number of the entry of the opener's t and the other's u: the first side's state comes first.
fn side_place(side: Side, t: State, u: State) -> usize
    requires { (t.0 < state_limit) × (u.0 < state_limit) }
    ensures { (result ≡ side_place side t.0 u.0) × (result < table_length) }
{
    match side {
        Side::First => pair_place(t, u),
        Side::Second => pair_place(u, t),
    }
}

// Whether that entry is there, of a depth below the one given.
pub fn is_lower(book: &[u8], side: Side, t: State, u: State, depth: u8) -> bool
    requires { (t.0 < state_limit) × (u.0 < state_limit) × (book_length ≤ length book.now) }
    ensures { Decides result (BySide side (LowerEntry (book_of book.now) depth) t.0 u.0) }
{
    let entry = entry_at(book, side_place(side, t, u));
    entry.side != 0 && entry.depth < depth
}

// Whether each answer of q with the action a leads, beside t, to such an entry.
fn answers_lower_entries(
    indexed: IndexedMoves,
    book: &[u8],
    side: Side,
    q: State,
    a: Action,
    t: State,
    depth: u8,
) -> bool
    requires q_lt_state_limit { (q.0 < state_limit) × (a.0 < action_limit) × (t.0 < state_limit) }
    requires book_length_in_bounds { book_length ≤ length book.now }
    ensures { Decides result
        ((u : ℕ) → Indexed indexed.entry.groups.now indexed.entry.targets.now q.0 a.0 u
        → BySide side (LowerEntry (book_of book.now) depth) t.0 u) }
{
    for i in group_from(indexed.groups, q, a)..group_to(indexed.groups, q, a) {
        if !is_lower(book, side, t, State(indexed.targets[i]), depth) {
            return false;
        }
    }
    true
}

// Whether the opener opens as the entry says: its move is there, and each answer leads to an entry of lower depth.
fn opens(indexed: IndexedMoves, book: &[u8], opener: Opener, entry: Entry) -> bool
    requires { (opener.state.0 < state_limit) × (opener.other.0 < state_limit) × (book_length ≤ length book.now) }
    ensures { Decides result (Opens (Indexed indexed.entry.groups.now indexed.entry.targets.now)
        (BySide opener.side (LowerEntry (book_of book.now) entry.depth)) opener.state.0 opener.other.0 entry.action
        entry.target) }
{
    let a = Action(byte_value(entry.action));
    let t = State(byte_value(entry.target));
    if a.0 >= ACTION_LIMIT || !has_move(indexed, opener.state, a, t) {
        return false;
    }
    answers_lower_entries(indexed, book, opener.side, opener.other, a, t, entry.depth)
}

// Whether the opener is one of n states and stays where it is, and the other is none, so that it has no answer: an
// answer of zero steps would lead to this very entry.
fn stays(n: u16, opener: Opener, entry: Entry) -> bool
    ensures { Decides result ((entry.action ≡ silent_label)
        × StaysUnanswered n opener.state.0 opener.other.0 entry.target) }
{
    byte_value(entry.action) == SILENT_ACTION
        && byte_value(entry.target) == opener.state.0
        && opener.state.0 < n
        && n <= opener.other.0
}

// Whether entry k is absent or sound. Silent openings are tested last, for few entries have one.
fn is_sound(indexed: IndexedMoves, book: &[u8], k: usize) -> bool
    requires { (k < table_length) × (book_length ≤ length book.now) }
    ensures { Decides result (SoundAt
        (Still (Indexed indexed.entry.groups.now indexed.entry.targets.now) indexed.entry.n)
        (book_of book.now) (k / state_limit) (k % state_limit)) }
{
    let entry = entry_at(book, k);
    if entry.side == 0 {
        return true;
    }
    let p = State((k / ROW) as u16);
    let q = State((k % ROW) as u16);
    let Some(opener) = who_opens(entry.side, p, q) else {
        return false;
    };
    opens(indexed, book, opener, entry) || stays(indexed.n, opener, entry)
}

// Tests each entry, in the order of their numbers.
fn check_entries(indexed: IndexedMoves, book: &[u8]) -> Result<(), BadEntry>
    requires { book_length ≤ length book.now }
    ensures { CheckDone
        (Still (Indexed indexed.entry.groups.now indexed.entry.targets.now) indexed.entry.n)
        book.now (checked_outcome result) }
{
    for k in 0..TABLE_LENGTH {
        if !is_sound(indexed, book, k) {
            return Err(BadEntry(k));
        }
    }
    Ok(())
}

// The answer where k is the number of the first bad entry, or that of all entries if none is bad.
pub fn bad_or_sound(k: usize) -> Result<(), BadEntry>
    ensures { BadTold k (checked_outcome result) }
{
    if k < TABLE_LENGTH {
        return Err(BadEntry(k));
    }
    Ok(())
}

// Tests a book of the moves, where no step is silent.
pub fn check_book(moves: &ListedMoves, book: &[u8]) -> Result<(), BadEntry>
    requires { book_length ≤ length book.now }
    ensures { CheckDone (StillMove moves.now.n moves.now.first moves.now.actions moves.now.targets)
        book.now (checked_outcome result) }
{
    let mut groups = [0u16; GROUPS_LENGTH];
    index_moves(moves, &mut groups);
    let indexed = IndexedMoves {
        n: moves.n,
        first: &moves.first,
        actions: &moves.actions,
        targets: &moves.targets,
        groups: &groups,
    };
    check_entries(indexed, book)
}
