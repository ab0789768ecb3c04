// Table and book of the moves that are held: an entry of the book is found in the round that separates its pair, while
// the classes before that round still stand, and the table is filled after the last round.
ghost use Rattle.held.specs.Moves.{held_moves};
ghost use Rattle.std.specs.Prelude.{◌≡◌, ◌≤◌, ◌<◌, length};
ghost use Rattle.text.specs.Limits.{table_length, book_length};
ghost use Rattle.ranking.specs.Table.{Ranked};
ghost use Rattle.books.specs.Books.{BookFilled};
ghost use Rattle.splitters.specs.Inner.Splitters.{Into, Ready, Rounded, Rounds, Counted};
ghost use Rattle.weak_books.specs.Inner.Entering.{RoundEntered, BookUpTo, BookEnded};

use crate::entering::enter_round;
use held::list::HeldMoves;
use ranking::table::clear;
use sets::SETS_LENGTH;
use splitters::incoming::note_labels;
use splitters::rounds::{SplittingTree, one_class, round};
use text::limits::{BOOK_LENGTH, TABLE_LENGTH};
use tree::filling::fill_table;

// One round more, with the entries of the pairs that it separates, if there are any. Yields whether there are.
fn book_round(
    moves: HeldMoves,
    into: &[u64; SETS_LENGTH],
    tree: &mut SplittingTree,
    book: &mut [u8],
) -> bool
    requires into { Into moves.labels.now moves.count moves.slots.now into.now }
    requires k_lt_classes { (tree.old.parts.n ≡ moves.n) × (tree.old.k < tree.old.parts.classes)
        × Ready (held_moves moves) moves.n tree.old.k tree.old.first tree.old.parts.class
        tree.old.parts.members tree.old.parts.origin tree.old.under tree.old.when tree.old.parts.classes
        tree.old.parts.together }
    requires book_length_in_bounds { book_length ≤ length book.old }
    ensures states { tree.new.parts.n ≡ moves.entry.n }
    ensures rounded { Rounded (held_moves moves.entry) moves.entry.n tree.old.k
        tree.old.parts.class tree.new.parts.class tree.new.parts.members tree.new.parts.origin tree.new.under
        tree.new.when tree.old.parts.classes tree.new.parts.classes tree.new.parts.together }
    ensures counted { Counted result tree.old.k tree.old.parts.classes tree.new.k tree.new.first
        tree.new.parts.classes }
    ensures round_entered { RoundEntered (held_moves moves.entry) moves.entry.n tree.old.k
        tree.old.parts.class tree.new.parts.class tree.old.parts.classes tree.new.parts.classes book.old
        book.new }
{
    let class = tree.parts.class;
    let members = tree.parts.members;
    let together = tree.parts.together;
    if !round(moves, into, tree) {
        return false;
    }
    let parts = &tree.parts;
    enter_round(
        moves,
        &class,
        &members,
        &parts.class,
        &parts.members,
        together,
        tree.k,
        book,
    );
    true
}

// Goes round until a round separates no further pair.
fn book_rounds(
    moves: HeldMoves,
    into: &[u64; SETS_LENGTH],
    tree: &mut SplittingTree,
    book: &mut [u8],
)
    requires into { Into moves.labels.now moves.count moves.slots.now into.now }
    requires rounds { (tree.old.parts.n ≡ moves.n) × Rounds (held_moves moves) moves.n tree.old.k
        tree.old.first tree.old.parts.class tree.old.parts.members tree.old.parts.origin tree.old.under tree.old.when
        tree.old.parts.classes tree.old.parts.together }
    requires book_length_in_bounds { (book_length ≤ length book.old)
        × BookUpTo (held_moves moves) moves.n tree.old.k book.old }
    ensures { BookEnded (held_moves moves.entry) moves.entry.n tree.new.k tree.new.parts.class
        tree.new.parts.members tree.new.parts.origin tree.new.under tree.new.when tree.new.parts.classes book.old
        book.new }
{
    // A loop: each round tells whether another one follows, and how many come is not known before.
    while book_round(moves, into, tree, book) {}
}

// Fills the table with the ranks and the book with the openings, and answers the last round that separated two states.
pub fn fill_held_book(moves: HeldMoves, table: &mut [u8], book: &mut [u8]) -> u8
    requires table_length_in_bounds { (table_length ≤ length table.old) × (book_length ≤ length book.old) }
    ensures ranked { Ranked (held_moves moves.entry) moves.entry.n
        table.old table.new result }
    ensures book_filled { BookFilled (held_moves moves.entry) moves.entry.n
        book.old book.new }
{
    clear(table, TABLE_LENGTH);
    clear(book, BOOK_LENGTH);
    let mut into = [0u64; SETS_LENGTH];
    note_labels(moves, &mut into);
    let mut tree = one_class(moves.n);
    book_rounds(moves, &into, &mut tree, book);
    let parts = &tree.parts;
    fill_table(
        moves.n,
        parts.classes,
        &parts.class,
        &parts.members,
        &parts.origin,
        &tree.under,
        &tree.when,
        table,
    );
    tree.k
}
