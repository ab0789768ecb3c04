// The book of the moves' ranks: for each two states of a rank above 0 the first opening whose answers all lead to a
// lower rank. Depth by depth and label by label, so that only the targets under one label are at hand; the second side
// opens where the first cannot, and then as in the entry of the two the other way round.
ghost use Rattle.std.specs.Prelude.{ℕ, ◌+◌, ◌≤◌, ◌<◌, length, get_or};
ghost use Rattle.lts.specs.Weak.{silent_label};
ghost use Rattle.text.specs.Limits.{action_limit, table_length, book_length, pair_place};
ghost use Rattle.text.specs.Lists.{Past};
ghost use Rattle.ranking.specs.Table.{Ranks};
ghost use Rattle.books.specs.Books.{BookFilled};
ghost use Rattle.sets.specs.Inner.Sets.{Member};
ghost use Rattle.silent.specs.Steps.{label_moves};
ghost use Rattle.silent.specs.Inner.Targets.{OwnNumbers, Targets};
ghost use Rattle.weak_books.specs.Inner.Opened.{OpenedTo, OnlyAt, OpenedBefore};
ghost use Rattle.weak_books.specs.Inner.OpensTo.{Irreflexive};
ghost use Rattle.weak_books.specs.Inner.RankSets.{LowerSets};

use crate::firsts::open_rows;
use crate::ranked::{join_each, sets_at_rank};
use crate::seconds::turn_rows;
use ranking::table::clear;
use sets::{SETS_LENGTH, clear_sets};
use silent::steps::LabelSteps;
use silent::targets::{low_targets, own_numbers, silent_targets};
use text::Action;
use text::limits::{ACTION_LIMIT, BOOK_LENGTH, ROW, SILENT_ACTION};

// Writes the entries of the first openings with the action a, at the depth of the states at hand.
fn open_action(
    steps: LabelSteps,
    own: &[u16; ROW],
    silent: &[u64; SETS_LENGTH],
    lower: &[u64; SETS_LENGTH],
    at: &[u64; SETS_LENGTH],
    a: Action,
    depth: u8,
    book: &mut [u8],
)
    requires own_numbers { OwnNumbers steps.n own.now }
    requires targets { Targets (label_moves steps) silent_label silent.now }
    requires irreflexive { Irreflexive (Member lower.now) }
    requires a_lt_action_limit { (a.0 < action_limit) × (book_length ≤ length book.old) }
    requires opened_to { OpenedTo (label_moves steps) steps.n lower.now at.now depth a.0
        book.old }
    ensures opened_to_2 { OpenedTo (label_moves steps.entry) steps.entry.n
        lower.now at.now depth (a.0 + 1) book.new }
    ensures only_at { OnlyAt steps.entry.n at.now book.old book.new }
{
    let of = a.0 as usize;
    if steps.from[of] == steps.from[of + 1] {
        return;
    }
    let mut sets = [0u64; SETS_LENGTH];
    low_targets(steps, own, silent, a, &mut sets);
    open_rows(steps.n, &sets, lower, at, a.0 as u8, depth, book);
}

// The same with any action, the lowest first.
fn open_actions(
    steps: LabelSteps,
    own: &[u16; ROW],
    silent: &[u64; SETS_LENGTH],
    lower: &[u64; SETS_LENGTH],
    at: &[u64; SETS_LENGTH],
    depth: u8,
    book: &mut [u8],
)
    requires own_numbers { OwnNumbers steps.n own.now }
    requires targets { Targets (label_moves steps) silent_label silent.now }
    requires irreflexive { Irreflexive (Member lower.now) }
    requires book_length_in_bounds { book_length ≤ length book.old }
    requires opened_to { OpenedTo (label_moves steps) steps.n lower.now at.now depth 0
        book.old }
    ensures opened_to_2 { OpenedTo (label_moves steps.entry) steps.entry.n
        lower.now at.now depth action_limit book.new }
    ensures only_at { OnlyAt steps.entry.n at.now book.old book.new }
{
    for a in 0..ACTION_LIMIT {
        open_action(steps, own, silent, lower, at, Action(a), depth, book);
    }
}

// Writes the entries of this depth that the first side opens, and adds the states of this rank to the lower ones.
fn open_depth(
    steps: LabelSteps,
    own: &[u16; ROW],
    silent: &[u64; SETS_LENGTH],
    table: &[u8],
    depth: u8,
    lower: &mut [u64; SETS_LENGTH],
    book: &mut [u8],
)
    requires own_numbers { OwnNumbers steps.n own.now }
    requires targets { Targets (label_moves steps) silent_label silent.now }
    requires ranks { Ranks (label_moves steps) steps.n table.now
        × (table_length ≤ length table.now) }
    requires depth_nonzero { (0 < depth) × (book_length ≤ length book.old) }
    requires lower_sets { LowerSets steps.n table.now depth lower.old }
    requires opened_before { OpenedBefore (label_moves steps) steps.n table.now depth book.old }
    ensures lower_sets_2 { LowerSets steps.entry.n table.now (depth + 1) lower.new }
    ensures opened_before_2 { OpenedBefore (label_moves steps.entry) steps.entry.n
        table.now (depth + 1) book.new }
    ensures past { Past book_length book.old book.new }
{
    let mut at = [0u64; SETS_LENGTH];
    sets_at_rank(steps.n, table, depth, &mut at);
    open_actions(steps, own, silent, lower, &at, depth, book);
    open_rows(
        steps.n,
        silent,
        lower,
        &at,
        SILENT_ACTION as u8,
        depth,
        book,
    );
    join_each(steps.n, lower, &at);
}

// The same of each depth from 1 up to the last.
fn open_depths(
    steps: LabelSteps,
    own: &[u16; ROW],
    silent: &[u64; SETS_LENGTH],
    table: &[u8],
    top: u8,
    lower: &mut [u64; SETS_LENGTH],
    book: &mut [u8],
)
    requires own_numbers { OwnNumbers steps.n own.now }
    requires targets { Targets (label_moves steps) silent_label silent.now }
    requires ranks { Ranks (label_moves steps) steps.n table.now
        × (table_length ≤ length table.now) }
    requires book_length_in_bounds { book_length ≤ length book.old }
    requires lower_sets { LowerSets steps.n table.now 1 lower.old }
    requires opened_before { OpenedBefore (label_moves steps) steps.n table.now 1 book.old }
    ensures opened_before_2 { OpenedBefore (label_moves steps.entry) steps.entry.n
        table.now (top + 1) book.new }
    ensures past { Past book_length book.old book.new }
{
    for depth in 0..top {
        open_depth(steps, own, silent, table, depth + 1, lower, book);
    }
}

// Writes the entries that the first side opens.
fn open_first(steps: LabelSteps, table: &[u8], top: u8, book: &mut [u8])
    requires ranks { Ranks (label_moves steps) steps.n table.now
        × (table_length ≤ length table.now) }
    requires book_length_in_bounds { book_length ≤ length book.old }
    requires opened_before { OpenedBefore (label_moves steps) steps.n table.now 1 book.old }
    ensures opened_before_2 { OpenedBefore (label_moves steps.entry) steps.entry.n
        table.now (top + 1) book.new }
    ensures past { Past book_length book.old book.new }
{
    let mut own = [0u16; ROW];
    own_numbers(steps.n, &mut own);
    let mut silent = [0u64; SETS_LENGTH];
    silent_targets(steps, &own, &mut silent);
    let mut lower = [0u64; SETS_LENGTH];
    clear_sets(&mut lower);
    open_depths(steps, &own, &silent, table, top, &mut lower, book);
}

// Fills the book, from the table of the ranks, of which `top` is the greatest.
pub fn fill_label_book(steps: LabelSteps, top: u8, table: &[u8], book: &mut [u8])
    requires ranks { Ranks (label_moves steps) steps.n table.now
        × (table_length ≤ length table.now) }
    requires by_index { (p q : ℕ) → p < steps.n → q < steps.n → get_or table.now (pair_place p q) 0 ≤ top }
    requires book_length_in_bounds { book_length ≤ length book.old }
    ensures { BookFilled (label_moves steps.entry) steps.entry.n
        book.old book.new }
{
    clear(book, BOOK_LENGTH);
    open_first(steps, table, top, book);
    turn_rows(steps.n, table, book);
}
