// The test of a book, entry by entry: the answers to an opening are looked up one by one. It is for models where no
// opening has many answers.
ghost use Rattle.held.specs.Moves.{held_moves};
ghost use Rattle.std.specs.Prelude.{ℕ, ◌/◌, ◌%◌, ◌≤◌, ◌<◌, length};
ghost use Rattle.lts.specs.Book.{LowerEntry, SoundAt};
ghost use Rattle.text.specs.Decides.{Decides};
ghost use Rattle.text.specs.Limits.{state_limit, table_length, book_length};
ghost use Rattle.books.specs.Books.{book_of};
ghost use Rattle.books.specs.Checks.{checked_outcome, CheckDone};
ghost use Rattle.books.specs.Inner.Sides.{BySide};
ghost use Rattle.sets.specs.Inner.SetValues.{In};
ghost use Rattle.weak_books.specs.Inner.Depths.{Flagged};

use crate::BYTE_VALUES;
use crate::depths::flag_labels;
use books::check::{BadEntry, is_lower};
use books::entry::{Side, entry_at, who_opens};
use held::list::HeldMoves;
use held::slots::target_row;
use sets::set::{Set, is_in};
use text::State;
use text::limits::{ROW, STATE_LIMIT, TABLE_LENGTH};

// Whether each of these answers leads, beside t, to an entry of lower depth.
pub fn answers_lower(answers: Set, book: &[u8], side: Side, t: State, depth: u8) -> bool
    requires { (t.0 < state_limit) × (book_length ≤ length book.now) }
    ensures { Decides result ((u : ℕ) → In answers u
        → BySide side (LowerEntry (book_of book.now) depth) t.0 u) }
{
    for u in answers {
        if !is_lower(book, side, t, State(u), depth) {
            return false;
        }
    }
    true
}

// Whether t is one of the targets, and each of the answers leads, beside t, to an entry of lower depth.
pub fn opens_by_answers(
    targets: Set,
    answers: Set,
    book: &[u8],
    side: Side,
    t: State,
    depth: u8,
) -> bool
    requires { book_length ≤ length book.now }
    ensures { Decides result (In targets t.0
        × ((u : ℕ) → In answers u → BySide side (LowerEntry (book_of book.now) depth) t.0 u)) }
{
    t.0 < STATE_LIMIT && is_in(targets, t.0) && answers_lower(answers, book, side, t, depth)
}

// Whether entry k is absent or sound.
fn is_sound(moves: HeldMoves, flags: &[u16; BYTE_VALUES], book: &[u8], k: usize) -> bool
    requires k_lt_table_length { (k < table_length) × (book_length ≤ length book.now) }
    requires flagged { Flagged moves.labels.now moves.count flags.now }
    ensures { Decides result (SoundAt (held_moves moves.entry)
        (book_of book.now) (k / state_limit) (k % state_limit)) }
{
    let entry = entry_at(book, k);
    if entry.side == 0 {
        return true;
    }
    if flags[entry.action as usize] == 0 {
        return false;
    }
    let p = State((k / ROW) as u16);
    let q = State((k % ROW) as u16);
    let Some(opener) = who_opens(entry.side, p, q) else {
        return false;
    };
    let row = target_row(u16::from(entry.action));
    let targets = moves.held(row, opener.state);
    let answers = moves.held(row, opener.other);
    let t = State(u16::from(entry.target));
    opens_by_answers(targets, answers, book, opener.side, t, entry.depth)
}

// Tests each entry, in the order of their numbers.
fn test_in_order(moves: HeldMoves, flags: &[u16; BYTE_VALUES], book: &[u8]) -> Result<(), BadEntry>
    requires book_length_in_bounds { book_length ≤ length book.now }
    requires flagged { Flagged moves.labels.now moves.count flags.now }
    ensures { CheckDone (held_moves moves.entry)
        book.now (checked_outcome result) }
{
    for k in 0..TABLE_LENGTH {
        if !is_sound(moves, flags, book, k) {
            return Err(BadEntry(k));
        }
    }
    Ok(())
}

// Tests a book of the moves that are held, entry by entry.
pub fn check_entries(moves: HeldMoves, book: &[u8]) -> Result<(), BadEntry>
    requires book_length_in_bounds { book_length ≤ length book.now }
    ensures { CheckDone (held_moves moves.entry)
        book.now (checked_outcome result) }
{
    let mut flags = [0u16; BYTE_VALUES];
    flag_labels(moves.labels, moves.count, &mut flags);
    test_in_order(moves, &flags, book)
}
