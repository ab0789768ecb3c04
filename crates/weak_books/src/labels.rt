// Table and book of steps by label, and the test of a book: by sets, or label by label where these have no room. By
// sets a book is tested depth by depth where an opening has many answers, and else entry by entry.
ghost use Rattle.std.specs.Prelude.{◌≤◌, length};
ghost use Rattle.text.specs.Limits.{table_length, book_length};
ghost use Rattle.text.specs.Lists.{Past};
ghost use Rattle.silent.specs.Steps.{label_moves};
ghost use Rattle.ranking.specs.Table.{Ranks};
ghost use Rattle.books.specs.Books.{BookFilled};
ghost use Rattle.books.specs.Checks.{checked_outcome, CheckDone};

use crate::book::fill_label_book;
use crate::check::check_label_book;
use crate::depths::{check_held_book, has_many_moves};
use crate::entries::check_entries;
use crate::filling::fill_held_book;
use books::check::BadEntry;
use held::labels::hold_labels;
use held::list::HeldMoves;
use held::{LABEL_COUNT, POOL_LENGTH, SLOTS_LENGTH};
use silent::steps::LabelSteps;
use weak_ranks::rounds::rank_labels;

// Fills the table with the ranks, and the book with the openings.
pub fn fill_books(steps: LabelSteps, table: &mut [u8], book: &mut [u8])
    requires table_length_in_bounds { (table_length ≤ length table.old) × (book_length ≤ length book.old) }
    ensures ranks { Ranks (label_moves steps.entry) steps.entry.n
        table.new × Past table_length table.old table.new }
    ensures book_filled { BookFilled (label_moves steps.entry) steps.entry.n
        book.old book.new }
{
    let mut labels = [0u16; LABEL_COUNT];
    let mut slots = [0u16; SLOTS_LENGTH];
    let mut pool = [0u64; POOL_LENGTH];
    if let Some(count) = hold_labels(steps, &mut labels, &mut slots, &mut pool) {
        let moves = HeldMoves {
            n: steps.n,
            labels: &labels,
            count,
            slots: &slots,
            pool: &pool,
        };
        fill_held_book(moves, table, book);
        return;
    }
    let top = rank_labels(steps, table);
    fill_label_book(steps, top, table, book);
}

// Tests a book.
pub fn check_books(steps: LabelSteps, book: &[u8]) -> Result<(), BadEntry>
    requires book_length_in_bounds { book_length ≤ length book.now }
    ensures { CheckDone (label_moves steps.entry)
        book.now (checked_outcome result) }
{
    let mut labels = [0u16; LABEL_COUNT];
    let mut slots = [0u16; SLOTS_LENGTH];
    let mut pool = [0u64; POOL_LENGTH];
    if let Some(count) = hold_labels(steps, &mut labels, &mut slots, &mut pool) {
        let moves = HeldMoves {
            n: steps.n,
            labels: &labels,
            count,
            slots: &slots,
            pool: &pool,
        };
        if has_many_moves(moves) {
            return check_held_book(moves, book);
        }
        return check_entries(moves, book);
    }
    check_label_book(steps, book)
}
