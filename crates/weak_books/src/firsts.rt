// The openings of the first side with one label, by sets: the targets of each state, and what is lower beside each.
ghost use Rattle.std.specs.Prelude.{◌≤◌, ◌<◌, length};
ghost use Rattle.text.specs.Limits.{state_limit, pair_place, book_length};
ghost use Rattle.sets.specs.Inner.Sets.{Member};
ghost use Rattle.weak_books.specs.Inner.OpensTo.{Irreflexive, LowestOf};
ghost use Rattle.weak_books.specs.Inner.Opened.{PairOpened, LabelOpened};

use books::entry::{Entry, Side, entry_at, put_entry};
use ranking::table::pair_place;
use sets::SETS_LENGTH;
use sets::set::{is_empty, set_at, without};
use text::State;

// The lowest target of p beside which all targets of q are lower. No target is lower beside itself, so that none opens
// that is a target of q.
fn lowest_opening(
    targets: &[u64; SETS_LENGTH],
    lower: &[u64; SETS_LENGTH],
    p: State,
    q: State,
) -> Option<State>
    requires p_lt_state_limit { (p.0 < state_limit) × (q.0 < state_limit) }
    requires irreflexive { Irreflexive (Member lower.now) }
    ensures { LowestOf (Member targets.now) (Member lower.now) p.0 q.0 result }
{
    let answers = set_at(targets, q.0 as usize);
    for t in without(set_at(targets, p.0 as usize), answers) {
        if is_empty(without(answers, set_at(lower, t as usize))) {
            return Some(State(t));
        }
    }
    None
}

// Writes the entry of p and q, if there is none and p opens with the label a.
fn open_pair(
    targets: &[u64; SETS_LENGTH],
    lower: &[u64; SETS_LENGTH],
    a: u8,
    p: State,
    q: State,
    depth: u8,
    book: &mut [u8],
)
    requires p_lt_state_limit { (p.0 < state_limit) × (q.0 < state_limit) × (book_length ≤ length book.old) }
    requires irreflexive { Irreflexive (Member lower.now) }
    ensures { PairOpened targets.now lower.now depth a p.0 q.0 book.old
        book.new }
{
    if entry_at(book, pair_place(p, q)).side != 0 {
        return;
    }
    if let Some(t) = lowest_opening(targets, lower, p, q) {
        let entry = Entry {
            side: Side::First as u8,
            action: a,
            target: t.0 as u8,
            depth,
        };
        put_entry(p, q, entry, book);
    }
}

// Writes the entries of p and each state of its set.
fn open_row(
    targets: &[u64; SETS_LENGTH],
    lower: &[u64; SETS_LENGTH],
    at: &[u64; SETS_LENGTH],
    a: u8,
    p: State,
    depth: u8,
    book: &mut [u8],
)
    requires p_lt_state_limit { (p.0 < state_limit) × (book_length ≤ length book.old) }
    requires irreflexive { Irreflexive (Member lower.now) }
    ensures { LabelOpened targets.now lower.now at.now depth a
        (pair_place p.0 0) (pair_place p.0 state_limit) book.old book.new }
{
    for q in set_at(at, p.0 as usize) {
        open_pair(targets, lower, a, p, State(q), depth, book);
    }
}

// Writes the entries of each of n states and each state of its set.
pub fn open_rows(
    n: u16,
    targets: &[u64; SETS_LENGTH],
    lower: &[u64; SETS_LENGTH],
    at: &[u64; SETS_LENGTH],
    a: u8,
    depth: u8,
    book: &mut [u8],
)
    requires n_le_state_limit { (n ≤ state_limit) × (book_length ≤ length book.old) }
    requires irreflexive { Irreflexive (Member lower.now) }
    ensures { LabelOpened targets.now lower.now at.now depth a 0 (pair_place n 0)
        book.old book.new }
{
    for p in 0..n {
        open_row(targets, lower, at, a, State(p), depth, book);
    }
}
