// The test of a book, label by label, so that only the targets under one label are at hand.
ghost use Rattle.std.specs.Prelude.{◌⊎◌, ◌≡◌, ◌/◌, ◌%◌, ◌≤◌, ◌<◌, length};
ghost use Rattle.lts.specs.Weak.{silent_label};
ghost use Rattle.text.specs.Decides.{Decides};
ghost use Rattle.text.specs.Limits.{state_limit, action_limit, table_length, book_length};
ghost use Rattle.books.specs.Checks.{checked_outcome, CheckDone};
ghost use Rattle.silent.specs.Steps.{label_moves};
ghost use Rattle.silent.specs.Inner.Targets.{OwnNumbers, Targets};
ghost use Rattle.weak_books.specs.Inner.Bounds.{byte_values};
ghost use Rattle.weak_books.specs.Inner.Tested.{SetMove, SoundIf, FirstUnder};
ghost use Rattle.weak_books.specs.Inner.Noted.{NoLabel, ActionNoted, UsedTo, LabelsTo};

use crate::BYTE_VALUES;
use crate::entries::opens_by_answers;
use books::check::{BadEntry, bad_or_sound};
use books::entry::{entry_at, who_opens};
use sets::SETS_LENGTH;
use sets::set::set_at;
use silent::steps::LabelSteps;
use silent::targets::{low_targets, own_numbers, silent_targets};
use text::limits::{ACTION_LIMIT, ROW, SILENT_ACTION, TABLE_LENGTH};
use text::{Action, State};

// Whether entry k, if it is there and has this action, is sound.
fn sound_if_under(sets: &[u64; SETS_LENGTH], book: &[u8], a: Action, k: usize) -> bool
    requires { (k < table_length) × (book_length ≤ length book.now) }
    ensures { Decides result (SoundIf (SetMove sets.now) (λ b. b ≡ a.0) book.now
        (k / state_limit) (k % state_limit)) }
{
    let entry = entry_at(book, k);
    if entry.side == 0 {
        return true;
    }
    if u16::from(entry.action) != a.0 {
        return true;
    }
    let p = State((k / ROW) as u16);
    let q = State((k % ROW) as u16);
    let Some(opener) = who_opens(entry.side, p, q) else {
        return false;
    };
    let targets = set_at(sets, opener.state.0 as usize);
    let answers = set_at(sets, opener.other.0 as usize);
    let t = State(u16::from(entry.target));
    opens_by_answers(targets, answers, book, opener.side, t, entry.depth)
}

// The number of the first bad entry with this action before entry `limit`, or `limit`: up to there the next action's
// entries are tested, so that it is a number and no Option.
fn first_bad_under(sets: &[u64; SETS_LENGTH], book: &[u8], a: Action, limit: usize) -> usize
    requires { (limit ≤ table_length) × (book_length ≤ length book.now) }
    ensures { FirstUnder (SetMove sets.now) (λ b. b ≡ a.0) book.now limit result }
{
    for k in 0..limit {
        if !sound_if_under(sets, book, a, k) {
            return k;
        }
    }
    limit
}

// The same for an action of low moves; their targets are sought only if the action is used.
fn first_bad_with(
    steps: LabelSteps,
    own: &[u16; ROW],
    silent: &[u64; SETS_LENGTH],
    used: &[u8; BYTE_VALUES],
    book: &[u8],
    a: Action,
    limit: usize,
) -> usize
    requires own_numbers { OwnNumbers steps.n own.now }
    requires targets { Targets (label_moves steps) silent_label silent.now }
    requires a_lt_action_limit { (a.0 < action_limit) × UsedTo book.now used.now limit }
    requires limit_le_table_length { (limit ≤ table_length) × (book_length ≤ length book.now) }
    ensures { FirstUnder (label_moves steps.entry)
        (λ b. b ≡ a.0) book.now limit result }
{
    if used[a.0 as usize] == 0 {
        return limit;
    }
    let mut sets = [0u64; SETS_LENGTH];
    low_targets(steps, own, silent, a, &mut sets);
    first_bad_under(&sets, book, a, limit)
}

// The same for the actions of all low moves.
fn first_bad_low(
    steps: LabelSteps,
    own: &[u16; ROW],
    silent: &[u64; SETS_LENGTH],
    used: &[u8; BYTE_VALUES],
    book: &[u8],
    limit: usize,
) -> usize
    requires own_numbers { OwnNumbers steps.n own.now }
    requires targets { Targets (label_moves steps) silent_label silent.now }
    requires used_to { UsedTo book.now used.now limit }
    requires limit_le_table_length { (limit ≤ table_length) × (book_length ≤ length book.now) }
    ensures { FirstUnder (label_moves steps.entry)
        (λ b. b < action_limit) book.now limit result }
{
    let mut k = limit;
    for a in 0..ACTION_LIMIT {
        k = first_bad_with(steps, own, silent, used, book, Action(a), k);
    }
    k
}

// Whether some moves can have the action.
fn is_label(a: Action) -> bool
    ensures { Decides result ((a.0 < action_limit) ⊎ (a.0 ≡ silent_label)) }
{
    a.0 < ACTION_LIMIT || a.0 == SILENT_ACTION
}

// Notes the action of entry k, if it is there. Yields whether no move has such an action. The notes are numbers and no
// bools: `ActionNoted` and `UsedTo` say that they are 1.
fn note_action(book: &[u8], k: usize, used: &mut [u8]) -> bool
    requires { (k < table_length) × (book_length ≤ length book.now) × (byte_values ≤ length used.old) }
    ensures decides { Decides result (NoLabel book.now k) }
    ensures action_noted { ActionNoted book.now k used.old used.new }
{
    let entry = entry_at(book, k);
    if entry.side == 0 {
        return false;
    }
    if !is_label(Action(u16::from(entry.action))) {
        return true;
    }
    used[entry.action as usize] = 1;
    false
}

// Notes which actions the entries have, up to the first entry with an action that no move has. Yields its number, or
// that of all entries.
fn note_actions(book: &[u8], used: &mut [u8; BYTE_VALUES]) -> usize
    requires { book_length ≤ length book.now }
    ensures { LabelsTo book.now used.new result }
{
    for k in 0..TABLE_LENGTH {
        if note_action(book, k, used) {
            return k;
        }
    }
    TABLE_LENGTH
}

// Tests a book of the moves.
pub fn check_label_book(steps: LabelSteps, book: &[u8]) -> Result<(), BadEntry>
    requires book_length_in_bounds { book_length ≤ length book.now }
    ensures { CheckDone (label_moves steps.entry)
        book.now (checked_outcome result) }
{
    let mut used = [0u8; BYTE_VALUES];
    let labelled = note_actions(book, &mut used);
    let mut own = [0u16; ROW];
    own_numbers(steps.n, &mut own);
    let mut silent = [0u64; SETS_LENGTH];
    silent_targets(steps, &own, &mut silent);
    let limit = first_bad_under(&silent, book, Action(SILENT_ACTION), labelled);
    let k = first_bad_low(steps, &own, &silent, &used, book, limit);
    bad_or_sound(k)
}
