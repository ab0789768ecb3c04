// The entries of the pairs that a round separates, by the classes before it.
ghost use Rattle.std.specs.Prelude.{◌≡◌, ℕ, ◌≤◌, ◌<◌, length, MatchOption, IsSome};
ghost use Rattle.lts.specs.Alike.{Answers};
ghost use Rattle.text.specs.Limits.{state_limit, pair_place, book_length};
ghost use Rattle.by_state.specs.Inner.Numbered.{Same};
ghost use Rattle.sets.specs.Inner.SetValues.{In, SetOf};
ghost use Rattle.held.specs.Moves.{held_moves};
ghost use Rattle.ranking.specs.Inner.TableWrites.{SeparatedBy};
ghost use Rattle.splitters.specs.Inner.Partition.{ClassSets};
ghost use Rattle.books.specs.Inner.Filling.{EntryWritten};
ghost use Rattle.books.specs.Inner.Sides.{entry_of};
ghost use Rattle.weak_books.specs.Inner.Entering.{side_entry, opening_entry, PairEntered, Entered};
ghost use Rattle.weak_books.specs.Inner.Entering.{Beside, SeparatedBelow};

use crate::apart::find_opening;
use crate::opening::Opening;
use books::entry::{Entry, Side, put_entry};
use by_state::lists::class_at;
use held::list::HeldMoves;
use sets::SETS_LENGTH;
use sets::set::{Set, set_at, without};
use text::State;
use text::limits::ROW;

// The entry of a side's opening.
fn entry_by(side: Side, opening: Opening, depth: u8) -> Entry
    ensures { entry_of result ≡ side_entry side opening depth }
{
    Entry {
        side: side as u8,
        action: opening.label.0 as u8,
        target: opening.target.0 as u8,
        depth,
    }
}

// Writes the entry of p and q: the first side opens, or where it cannot, the second.
fn put_opening(
    p: State,
    q: State,
    first: Option<Opening>,
    second: Option<Opening>,
    depth: u8,
    book: &mut [u8],
)
    requires p_lt_state_limit { (p.0 < state_limit) × (q.0 < state_limit) × (book_length ≤ length book.old) }
    requires one_opens { MatchOption first (IsSome second) (λ x. Unit {0}) }
    ensures { EntryWritten (pair_place p.0 q.0) (opening_entry first second depth) book.old
        book.new }
{
    let entry = match first {
        Some(opening) => entry_by(Side::First, opening, depth),
        None => entry_by(Side::Second, second.unwrap(), depth),
    };
    put_entry(p, q, entry, book);
}

// Writes the entries of p and q both ways, which do not answer each other.
fn enter_pair(
    moves: HeldMoves,
    class: &[u16; ROW],
    members: &[u64; SETS_LENGTH],
    p: State,
    q: State,
    depth: u8,
    book: &mut [u8],
)
    requires p_lt_n { (p.0 < moves.n) × (q.0 < moves.n) × (book_length ≤ length book.old) }
    requires class_sets { ClassSets moves.n class.now members.now }
    requires not_answers { ¬ (Answers (held_moves moves) (Same class.now) p.0 q.0) }
    requires not_p_0 { ¬ (p.0 ≡ q.0) }
    ensures { PairEntered (held_moves moves.entry)
        class.now depth p.0 q.0 book.old book.new }
{
    let one = find_opening(moves, class, members, p, q);
    let other = find_opening(moves, class, members, q, p);
    put_opening(p, q, one, other, depth, book);
    put_opening(q, p, other, one, depth, book);
}

// Writes the entries of p and each of `others` below it.
fn enter_beside(
    moves: HeldMoves,
    class: &[u16; ROW],
    members: &[u64; SETS_LENGTH],
    p: State,
    others: Set,
    depth: u8,
    book: &mut [u8],
)
    requires p_lt_n { (p.0 < moves.n) × (book_length ≤ length book.old) }
    requires class_sets { ClassSets moves.n class.now members.now }
    requires by_index { (q : ℕ) → In others q
        → ¬ (Answers (held_moves moves) (Same class.now) p.0 q) }
    ensures { Entered (held_moves moves.entry)
        class.now depth (Beside p.0 others) book.old book.new }
{
    for q in others {
        if p.0 <= q {
            return;
        }
        enter_pair(moves, class, members, p, State(q), depth, book);
    }
}

// The states that were of the class of p and are no more.
fn separated_from(
    n: u16,
    class: &[u16; ROW],
    members: &[u64; SETS_LENGTH],
    next: &[u16; ROW],
    next_members: &[u64; SETS_LENGTH],
    p: State,
) -> Set
    requires p_lt_n { (p.0 < n) × (n ≤ state_limit) }
    requires class_sets { ClassSets n class.now members.now × ClassSets n next.now next_members.now }
    ensures { SetOf (λ q. (q < n) × SeparatedBy class.now next.now p.0 q) result }
{
    let before = class_at(class, p);
    let after = class_at(next, p);
    without(
        set_at(members, before.0 as usize),
        set_at(next_members, after.0 as usize),
    )
}

// Writes the entries of the pairs that a round has separated: of the states whose class had another, `states`.
pub fn enter_round(
    moves: HeldMoves,
    class: &[u16; ROW],
    members: &[u64; SETS_LENGTH],
    next: &[u16; ROW],
    next_members: &[u64; SETS_LENGTH],
    states: Set,
    depth: u8,
    book: &mut [u8],
)
    requires book_length_in_bounds { book_length ≤ length book.old }
    requires class_sets { ClassSets moves.n class.now members.now × ClassSets moves.n next.now next_members.now }
    requires by_index { ((p : ℕ) → In states p → p < moves.n)
        × ((p q : ℕ) → p < moves.n → q < moves.n → Same class.now p q → ¬ (p ≡ q) → In states p) }
    requires by_index_2 { (p q : ℕ) → p < moves.n → q < moves.n → SeparatedBy class.now next.now p q
        → ¬ (Answers (held_moves moves) (Same class.now) p q) }
    ensures { Entered (held_moves moves.entry)
        class.now depth (SeparatedBelow moves.entry.n class.now next.now) book.old
        book.new }
{
    for p in states {
        let others = separated_from(moves.n, class, members, next, next_members, State(p));
        enter_beside(moves, class, members, State(p), others, depth, book);
    }
}
