// The operation Check.
ghost use Rattle.std.specs.Prelude.{ℕ, ◌≤◌, length};
ghost use Rattle.model.specs.StoredModel.{model_at};
ghost use Rattle.model.specs.System.{view};
ghost use Rattle.model.specs.Inner.Stored.{Stored};
ghost use Rattle.lts.specs.Weak.{Tick, WeakMove};
ghost use Rattle.text.specs.Limits.{book_length};
ghost use Rattle.books.specs.Checks.{checked_outcome, CheckDone};
ghost use Rattle.judge.specs.CheckPromise.{check_outcome, CheckPromise};

use books::check::BadEntry;
use books::listed::ListedMoves;
use model::good_store::GoodStore;
use model::refusal::{Refusal, long_enough};
use silent::LABELS_LENGTH;
use silent::steps::LabelSteps;
use text::limits::{BOOK_LENGTH, INDEX_LENGTH, MOVES_LENGTH, STORE_LENGTH};

// Check on a good store with silent actions.
fn check_labels(store: &[u16], book: &[u8]) -> Result<(), BadEntry>
    requires stored { Stored store.now (model_at store.now) }
    requires book_length_in_bounds { book_length ≤ length book.now }
    ensures { CheckDone (WeakMove (view (model_at store.now))) book.now
        (checked_outcome result) }
{
    let mut from = [0u16; LABELS_LENGTH];
    let mut sources = [0u16; MOVES_LENGTH];
    let mut targets = [0u16; MOVES_LENGTH];
    moves::labels::list_store_labels(
        GoodStore { places: store },
        &mut from,
        &mut sources,
        &mut targets,
    );
    let n = model::store::states(store);
    let steps = LabelSteps {
        n,
        from: &from,
        sources: &sources,
        targets: &targets,
    };
    weak_books::labels::check_books(steps, book)
}

// Check on a good store without silent steps.
fn check_steps(store: &[u16], book: &[u8]) -> Result<(), BadEntry>
    requires stored { Stored store.now (model_at store.now) }
    requires book_length_in_bounds { book_length ≤ length book.now }
    requires by_index { (p q : ℕ) → ¬ (Tick (view (model_at store.now)) p q) }
    ensures { CheckDone (WeakMove (view (model_at store.now))) book.now
        (checked_outcome result) }
{
    let mut first = [0u16; INDEX_LENGTH];
    let mut actions = [0u16; MOVES_LENGTH];
    let mut targets = [0u16; MOVES_LENGTH];
    moves::moves::list_store_moves(
        GoodStore { places: store },
        &mut first,
        &mut actions,
        &mut targets,
    );
    let moves = ListedMoves {
        n: model::store::states(store),
        first,
        actions,
        targets,
    };
    books::check::check_book(&moves, book)
}

// Check on a good store.
pub fn check_good(store: &[u16], book: &[u8]) -> Result<(), BadEntry>
    requires stored { Stored store.now (model_at store.now) }
    requires book_length_in_bounds { book_length ≤ length book.now }
    ensures { CheckDone (WeakMove (view (model_at store.now))) book.now
        (checked_outcome result) }
{
    if moves::labels::has_silent(GoodStore { places: store }) {
        return check_labels(store, book);
    }
    check_steps(store, book)
}

// Answers whether the book is sound, or the number of its first bad entry.
pub fn check(store: &[u16], book: &[u8]) -> Result<Result<(), BadEntry>, Refusal>
    ensures { CheckPromise store.now book.now (check_outcome result) }
{
    long_enough(1, store.len(), STORE_LENGTH)?;
    long_enough(2, book.len(), BOOK_LENGTH)?;
    model::refusal::check_good(store)?;
    Ok(check_good(store, book))
}
