// The operation Book.
ghost use Rattle.std.specs.Prelude.{ℕ, ◌≤◌, length};
ghost use Rattle.lts.specs.Weak.{Tick, LowStep};
ghost use Rattle.model.specs.StoredModel.{model_at};
ghost use Rattle.model.specs.System.{view};
ghost use Rattle.model.specs.Inner.Stored.{Stored};
ghost use Rattle.text.specs.Limits.{table_length, book_length};
ghost use Rattle.ranking.specs.Table.{Ranks};
ghost use Rattle.books.specs.Books.{BookFilled};
ghost use Rattle.judge.specs.BookPromise.{book_outcome, BookPromise, BookDone};

use books::listed::ListedMoves;
use model::good_store::GoodStore;
use model::refusal::{Refusal, check_good, long_enough};
use model::roled::Roled;
use silent::LABELS_LENGTH;
use silent::steps::LabelSteps;
use text::limits::{
    BOOK_LENGTH, INDEX_LENGTH, MOVES_LENGTH, ROLES_LENGTH, STORE_LENGTH, TABLE_LENGTH,
};

// Book on a good store with silent actions: the steps are listed once, for the ranks and for the book.
fn book_labels(store: &[u16], table: &mut [u8], book: &mut [u8])
    requires stored { Stored store.now (model_at store.now) }
    requires table_length_in_bounds { (table_length ≤ length table.old) × (book_length ≤ length book.old) }
    ensures { BookDone (model_at store.now) table.old book.old
        table.new book.new }
{
    let mut from = [0u16; LABELS_LENGTH];
    let mut sources = [0u16; MOVES_LENGTH];
    let mut targets = [0u16; MOVES_LENGTH];
    moves::labels::list_store_labels(
        GoodStore { places: store },
        &mut from,
        &mut sources,
        &mut targets,
    );
    let n = model::store::states(store);
    let steps = LabelSteps {
        n,
        from: &from,
        sources: &sources,
        targets: &targets,
    };
    weak_books::labels::fill_books(steps, table, book);
}

// Fills the book of a good store's low steps, whose ranks the table has.
fn fill_steps(store: &[u16], table: &[u8], book: &mut [u8])
    requires stored { Stored store.now (model_at store.now) }
    requires ranks { Ranks (LowStep (view (model_at store.now))) (model_at store.now).head.states table.now
        × (table_length ≤ length table.now) }
    requires book_length_in_bounds { book_length ≤ length book.old }
    ensures { BookFilled (LowStep (view (model_at store.now)))
        (model_at store.now).head.states book.old book.new }
{
    let mut first = [0u16; INDEX_LENGTH];
    let mut actions = [0u16; MOVES_LENGTH];
    let mut targets = [0u16; MOVES_LENGTH];
    moves::moves::list_store_moves(
        GoodStore { places: store },
        &mut first,
        &mut actions,
        &mut targets,
    );
    let moves = ListedMoves {
        n: model::store::states(store),
        first,
        actions,
        targets,
    };
    books::book::fill_book(&moves, table, book);
}

// Book on a good store without silent steps. Where no round separates two states the book is empty, and no step is
// listed.
fn book_steps(store: &[u16], table: &mut [u8], book: &mut [u8])
    requires stored { Stored store.now (model_at store.now) }
    requires table_length_in_bounds { (table_length ≤ length table.old) × (book_length ≤ length book.old) }
    requires by_index { (p q : ℕ) → ¬ (Tick (view (model_at store.now)) p q) }
    ensures { BookDone (model_at store.now) table.old book.old
        table.new book.new }
{
    let mut roles = [0u16; ROLES_LENGTH];
    let good = GoodStore { places: store };
    model::index::roles(good, &mut roles);
    let roled = Roled {
        store: good,
        roles: &roles,
    };
    let last = moves::table::fill_plain_table(roled, table);
    if last == 0 {
        ranking::table::clear(book, BOOK_LENGTH);
        return;
    }
    fill_steps(store, table, book);
}

// Book on a good store.
pub fn book_good(store: &[u16], table: &mut [u8], book: &mut [u8])
    requires stored { Stored store.now (model_at store.now) }
    requires table_length_in_bounds { (table_length ≤ length table.old) × (book_length ≤ length book.old) }
    ensures { BookDone (model_at store.now) table.old book.old
        table.new book.new }
{
    if moves::labels::has_silent(GoodStore { places: store }) {
        book_labels(store, table, book);
        return;
    }
    book_steps(store, table, book);
}

// Fills the table with the ranks, and the book with an opening for each two states of a rank above 0.
pub fn book(store: &[u16], table: &mut [u8], book: &mut [u8]) -> Result<(), Refusal>
    ensures { BookPromise store.now table.old book.old (book_outcome result)
        table.new book.new }
{
    long_enough(1, store.len(), STORE_LENGTH)?;
    long_enough(2, table.len(), TABLE_LENGTH)?;
    long_enough(3, book.len(), BOOK_LENGTH)?;
    check_good(store)?;
    book_good(store, table, book);
    Ok(())
}
