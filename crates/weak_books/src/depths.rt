// The test of a book, depth by depth: at each, the entries of lower depth are at hand as sets, so that all answers to
// an opening are tested at once. It is for models where an opening has many answers.
ghost use Rattle.held.specs.Moves.{held_moves};
ghost use Rattle.std.specs.Prelude.{◌⊎◌, ◌≡◌, ℕ, ◌/◌, ◌%◌, ◌+◌, ◌≤◌, ◌<◌, length, get_or};
ghost use Rattle.lts.specs.Book.{Present, SoundAt};
ghost use Rattle.lts.specs.Weak.{silent_label};
ghost use Rattle.text.specs.Decides.{Decides};
ghost use Rattle.text.specs.Limits.{state_limit, action_limit, table_length, book_length};
ghost use Rattle.books.specs.Books.{entry_number, book_of};
ghost use Rattle.books.specs.Checks.{checked_outcome, CheckDone};
ghost use Rattle.books.specs.Inner.Sides.{FirstOf, SoundTo};
ghost use Rattle.sets.specs.Inner.Sets.{Member};
ghost use Rattle.sets.specs.Inner.SetValues.{In};
ghost use Rattle.held.specs.Held.{label_count};
ghost use Rattle.weak_books.specs.Inner.Bounds.{byte_values};
ghost use Rattle.weak_books.specs.Inner.Depths.{OnChain, AtDepth, Chained, LowerBy, LowerAdded};
ghost use Rattle.weak_books.specs.Inner.Depths.{Flagged};
ghost use Rattle.weak_books.specs.Inner.ManyMoves.{ManyMoves, SomeManyMoves};

use crate::BYTE_VALUES;
use books::check::{BadEntry, bad_or_sound};
use books::entry::{Side, entry_at, who_opens};
use held::LABEL_COUNT;
use held::list::HeldMoves;
use held::slots::target_row;
use sets::set::{Set, is_empty, is_in, set_at, size, without};
use sets::{SETS_LENGTH, add_member};
use text::State;
use text::limits::{ROW, STATE_LIMIT, TABLE_LENGTH};

// Up to so many answers to an opening are tested one by one no slower than by sets.
const FEW_ANSWERS: u32 = 3;

// Chains entry k by its depth, if it is there: `head` has, for each depth, the number after that of its last entry, and
// `link` for each entry the same of the one before it, 0 where there is none. There is no heap for lists of their own,
// and an entry that is not there must not cost a place, so that 0 stands for none in both.
fn chain_entry(book: &[u8], k: usize, head: &mut [u16; BYTE_VALUES], link: &mut [u16; TABLE_LENGTH])
    requires { (k < table_length) × (book_length ≤ length book.now) × Chained book.now head.old link.old k }
    ensures { Chained book.now head.new link.new (k + 1) }
{
    let entry = entry_at(book, k);
    if entry.side == 0 {
        return;
    }
    let d = entry.depth as usize;
    link[k] = head[d];
    head[d] = k as u16 + 1;
}

// Chains all entries.
fn chain_entries(book: &[u8], head: &mut [u16; BYTE_VALUES], link: &mut [u16; TABLE_LENGTH])
    requires { (book_length ≤ length book.now) × Chained book.now head.old link.old 0 }
    ensures { Chained book.now head.new link.new table_length }
{
    for k in 0..TABLE_LENGTH {
        chain_entry(book, k, head, link);
    }
}

// Flags the labels of the list. The flags are numbers and no bools: `Flagged` speaks of 1 and 0.
pub fn flag_labels(labels: &[u16; LABEL_COUNT], count: u16, flags: &mut [u16; BYTE_VALUES])
    requires { (count ≤ label_count) × ((i : ℕ) → i < count → get_or labels.now i 0 < byte_values)
        × ((a : ℕ) → get_or flags.old a 0 ≡ 0) }
    ensures { Flagged labels.now count flags.new }
{
    for i in 0..count {
        flags[labels[i as usize] as usize] = 1;
    }
}

// Whether t is one of the targets, and each of the answers is one of the lower ones beside t.
fn opens_by_sets(targets: Set, answers: Set, lower: &[u64; SETS_LENGTH], t: State) -> bool
    ensures { Decides result (In targets t.0 × ((u : ℕ) → In answers u → Member lower.now t.0 u)) }
{
    t.0 < STATE_LIMIT
        && is_in(targets, t.0)
        && is_empty(without(answers, set_at(lower, t.0 as usize)))
}

// Whether entry k, which is there, is sound: `there` and `back` have the entries of lower depth.
fn sound_entry(
    moves: HeldMoves,
    flags: &[u16; BYTE_VALUES],
    book: &[u8],
    there: &[u64; SETS_LENGTH],
    back: &[u64; SETS_LENGTH],
    k: usize,
) -> bool
    requires k_lt_table_length { (k < table_length) × (book_length ≤ length book.now) × Present (entry_number book.now k) }
    requires flagged { Flagged moves.labels.now moves.count flags.now }
    requires lower_by { LowerBy book.now (entry_number book.now k).depth there.now back.now }
    ensures { Decides result (SoundAt (held_moves moves.entry)
        (book_of book.now) (k / state_limit) (k % state_limit)) }
{
    let entry = entry_at(book, k);
    if flags[entry.action as usize] == 0 {
        return false;
    }
    let p = State((k / ROW) as u16);
    let q = State((k % ROW) as u16);
    let Some(opener) = who_opens(entry.side, p, q) else {
        return false;
    };
    let row = target_row(u16::from(entry.action));
    let targets = moves.held(row, opener.state);
    let answers = moves.held(row, opener.other);
    let t = State(u16::from(entry.target));
    match opener.side {
        Side::First => opens_by_sets(targets, answers, there, t),
        Side::Second => opens_by_sets(targets, answers, back, t),
    }
}

// The first bad entry of a chain before entry `limit`, or `limit`. A loop: each link says where the next entry is, and
// the number falls, so that no iterator over places walks it.
fn first_bad_on(
    moves: HeldMoves,
    flags: &[u16; BYTE_VALUES],
    book: &[u8],
    there: &[u64; SETS_LENGTH],
    back: &[u64; SETS_LENGTH],
    link: &[u16; TABLE_LENGTH],
    from: u16,
    depth: u16,
    limit: usize,
) -> usize
    requires from_le_table_length { (from ≤ table_length) × (book_length ≤ length book.now) }
    requires flagged { Flagged moves.labels.now moves.count flags.now }
    requires lower_by { LowerBy book.now depth there.now back.now }
    requires by_index { (k : ℕ) → get_or link.now k 0 ≤ k }
    requires by_index_2 { (k : ℕ) → OnChain link.now k from → AtDepth book.now depth k }
    ensures { FirstOf (held_moves moves.entry)
        (λ k. OnChain link.now k from) book.now limit result }
{
    let mut bad = limit;
    let mut next = usize::from(from);
    while next != 0 {
        let k = next - 1;
        if k < bad {
            if !sound_entry(moves, flags, book, there, back, k) {
                bad = k;
            }
        }
        next = usize::from(link[k]);
    }
    bad
}

// Adds the pairs of a chain's entries to the sets of the lower ones, link by link.
fn add_chain(
    link: &[u16; TABLE_LENGTH],
    from: u16,
    there: &mut [u64; SETS_LENGTH],
    back: &mut [u64; SETS_LENGTH],
)
    requires { (from ≤ table_length) × ((k : ℕ) → get_or link.now k 0 ≤ k) }
    ensures { LowerAdded (λ k. OnChain link.now k from) there.old back.old
        there.new back.new }
{
    let mut next = usize::from(from);
    while next != 0 {
        let k = next - 1;
        let p = (k / ROW) as u16;
        let q = (k % ROW) as u16;
        add_member(there, State(p), q);
        add_member(back, State(q), p);
        next = usize::from(link[k]);
    }
}

// The first bad entry, or the number of all entries, below which each chain is searched: depth by depth, the lowest first.
fn first_bad_by_depth(
    moves: HeldMoves,
    flags: &[u16; BYTE_VALUES],
    book: &[u8],
    head: &[u16; BYTE_VALUES],
    link: &[u16; TABLE_LENGTH],
) -> usize
    requires book_length_in_bounds { book_length ≤ length book.now }
    requires flagged { Flagged moves.labels.now moves.count flags.now }
    requires chained { Chained book.now head.now link.now table_length }
    ensures { SoundTo (held_moves moves.entry)
        book.now result }
{
    let mut there = [0u64; SETS_LENGTH];
    let mut back = [0u64; SETS_LENGTH];
    let mut bad = TABLE_LENGTH;
    for d in 0..BYTE_VALUES {
        let from = head[d];
        bad = first_bad_on(moves, flags, book, &there, &back, link, from, d as u16, bad);
        add_chain(link, from, &mut there, &mut back);
    }
    bad
}

// Tests a book of the moves that are held.
pub fn check_held_book(moves: HeldMoves, book: &[u8]) -> Result<(), BadEntry>
    requires book_length_in_bounds { book_length ≤ length book.now }
    ensures { CheckDone (held_moves moves.entry)
        book.now (checked_outcome result) }
{
    let mut head = [0u16; BYTE_VALUES];
    let mut link = [0u16; TABLE_LENGTH];
    let mut flags = [0u16; BYTE_VALUES];
    chain_entries(book, &mut head, &mut link);
    flag_labels(moves.labels, moves.count, &mut flags);
    let k = first_bad_by_depth(moves, &flags, book, &head, &link);
    bad_or_sound(k)
}

// Whether some state has many moves with the label a.
fn has_many_moves_with(moves: HeldMoves, a: u16) -> bool
    requires { ((a < action_limit) ⊎ (a ≡ silent_label)) }
    ensures { Decides result (ManyMoves moves.entry.slots.now moves.entry.pool.now a) }
{
    let row = target_row(a);
    for p in 0..STATE_LIMIT {
        if FEW_ANSWERS < size(moves.held(row, State(p))) {
            return true;
        }
    }
    false
}

// Whether some state has many moves with one label. Only the time that a test takes rests on it.
pub fn has_many_moves(moves: HeldMoves) -> bool
    ensures { Decides result (SomeManyMoves moves.entry.labels.now moves.entry.count moves.entry.slots.now moves.entry.pool.now) }
{
    for i in 0..moves.count {
        if has_many_moves_with(moves, moves.labels[i as usize]) {
            return true;
        }
    }
    false
}
