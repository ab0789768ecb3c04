// Lines that are a letter and numbers, each read in one pass over its bytes: line 1, and the lines of extra starts and
// of steps.
ghost use Rattle.std.specs.Prelude.{false, ◌≡◌, ◌+◌, ◌-◌, ◌≤◌, ◌<◌, length, get_or};
ghost use Rattle.text.specs.Numbers.{below};
ghost use Rattle.text.specs.Lines.{head_bounds, start_bounds, step_bounds, row_letter, row_count, row_bounds};
ghost use Rattle.text.specs.Lines.{head_fits?, start_fits?, step_fits?};
ghost use Rattle.text.specs.Decides.{Decides};
ghost use Rattle.text.specs.Inner.Row.{RowBegins, separator_kind, BadNumbers, RowRefused, RowAt};
ghost use Rattle.text.specs.Inner.Columns.{columns, numbers_in, ColumnsTo, ColumnsScanned};

use crate::bytes::{COMMA, LINE_END, kind};
use crate::limits::{ACTION_LIMIT, STATE_LIMIT, STEP_LIMIT};
use crate::line::{fields, find, is_letter};
use crate::number::{Bounds, NumberAt, NumberFault, below, number_at, within};
use crate::{Fault, Head, State, StepLine};

// Which line it is: line 1, or the line of an extra start or of a step in a model whose line 1 is known.
#[derive(Clone, Copy)]
pub enum Row {
    HeadRow,
    StartRow(Head),
    StepRow(Head),
}

// How far the numbers of a row are read: the place after the last of them, and whether one of them is outside its
// bounds.
#[derive(Clone, Copy)]
pub struct RowScan {
    pub end: usize,
    pub outside: bool,
}

// A row is read into so many columns, of which a row with fewer numbers leaves the first ones free: a fixed number of
// turns, each with the same byte due after its number, which the compiler unrolls.
pub const COLUMNS: usize = 4;

// The letter of a row.
fn letter_of(row: Row) -> u8
    ensures { result ≡ row_letter row }
{
    match row {
        Row::HeadRow => b'M',
        Row::StartRow(_) => b'I',
        Row::StepRow(_) => b'S',
    }
}

// How many numbers a row has.
fn count_of(row: Row) -> usize
    ensures { result ≡ row_count row }
{
    match row {
        Row::HeadRow => 4,
        Row::StartRow(_) => 1,
        Row::StepRow(_) => 3,
    }
}

// The bounds of number i of line 1; the start is below the states.
fn head_bounds(i: usize, states: u16) -> Bounds
    requires { i < 4 }
    ensures { result ≡ get_or (head_bounds states) i (below 0) }
{
    match i {
        0 => Bounds {
            least: 1,
            limit: STATE_LIMIT + 1,
        },
        1 => Bounds {
            least: 1,
            limit: ACTION_LIMIT + 1,
        },
        2 => below(STEP_LIMIT + 1),
        _ => below(states),
    }
}

// The bounds of the number in the line of an extra start, which is below the states.
fn start_bounds(head: Head) -> Bounds
    ensures { result ≡ get_or (start_bounds head) 0 (below 0) }
{
    below(head.states)
}

// The bounds of number i of a step's line: the action is below the actions, source and target are below the states.
fn step_bounds(i: usize, head: Head) -> Bounds
    requires { i < 3 }
    ensures { result ≡ get_or (step_bounds head) i (below 0) }
{
    below(if i == 1 { head.actions } else { head.states })
}

// The bounds of the number in a column of a row, where `states` is the number in the first.
fn bounds_of(row: Row, column: usize, states: u16) -> Bounds
    requires { (columns - row_count row ≤ column) × (column < columns) }
    ensures { result ≡ get_or (row_bounds row states) (column - (columns - row_count row)) (below 0) }
{
    match row {
        Row::HeadRow => head_bounds(column, states),
        Row::StartRow(head) => start_bounds(head),
        Row::StepRow(head) => step_bounds(column - 1, head),
    }
}

// Whether line 1 may have these numbers.
pub fn head_fits(h: Head) -> bool
    ensures { result ≡ head_fits? h }
{
    within(head_bounds(0, h.states), u32::from(h.states))
        && within(head_bounds(1, h.states), u32::from(h.actions))
        && within(head_bounds(2, h.states), u32::from(h.steps))
        && within(head_bounds(3, h.states), u32::from(h.start.0))
}

// Whether the state of an extra start is there.
pub fn start_fits(head: Head, p: State) -> bool
    ensures { result ≡ start_fits? head p.0 }
{
    within(start_bounds(head), u32::from(p.0))
}

// Whether the states and the action of a step are there.
pub fn step_fits(head: Head, s: StepLine) -> bool
    ensures { result ≡ step_fits? head s }
{
    within(step_bounds(0, head), u32::from(s.source.0))
        && within(step_bounds(1, head), u32::from(s.action.0))
        && within(step_bounds(2, head), u32::from(s.target.0))
}

// Whether the line at a place begins with a letter and a comma.
fn begins(text: &[u8], at: usize, letter: u8) -> bool
    requires { at ≤ length text.now }
    ensures { Decides result (RowBegins letter text.now at) }
{
    2 <= text.len() - at && is_letter(text[at], letter) && kind(text[at + 1]) == COMMA
}

// The kind of the byte that follows the number in a column.
fn separator(column: usize) -> u8
    requires { column < columns }
    ensures { result ≡ separator_kind (column + 1) columns }
{
    if column + 1 == COLUMNS {
        LINE_END
    } else {
        COMMA
    }
}

// The number in a column of a row, behind the byte where the numbers before it end: stored, if it is within its bounds.
fn next_number(
    text: &[u8],
    at: usize,
    row: Row,
    column: usize,
    scan: RowScan,
    out: &mut [u16],
) -> Option<RowScan>
    requires { ColumnsTo row text.now at scan.outside out.old column scan.end × (column < columns) }
    ensures { ColumnsScanned row text.now at out.new (column + 1) result }
{
    if column < COLUMNS - count_of(row) {
        return Some(scan);
    }
    let bounds = bounds_of(row, column, out[0]);
    let NumberAt { number, end } = number_at(text, scan.end + 1, separator(column), bounds);
    match number {
        Ok(v) => {
            out[column] = v;
            Some(RowScan { end, ..scan })
        }
        Err(NumberFault::Outside) => Some(RowScan { end, outside: true }),
        Err(NumberFault::BadDigits) => None,
    }
}

// The numbers of a row whose letter and comma stand at a place; or one has bad digits up to the byte that is due.
fn numbers_at(text: &[u8], at: usize, row: Row, out: &mut [u16]) -> Option<RowScan>
    requires { ColumnsTo row text.now at false out.old 0 (at + 1) }
    ensures { ColumnsScanned row text.now at out.new columns result }
{
    let mut scan = RowScan {
        end: at + 1,
        outside: false,
    };
    for column in 0..COLUMNS {
        scan = next_number(text, at, row, column, scan, out)?;
    }
    Some(scan)
}

// What is found at a place where a row is due; or its beginning or a number is bad.
fn scan_row(text: &[u8], at: usize, row: Row, out: &mut [u16]) -> Option<RowScan>
    requires { (at ≤ length text.now) × (length out.old ≡ columns) × (get_or (numbers_in row out.old) 0 0 ≡ 0) }
    ensures { ColumnsScanned row text.now at out.new columns result }
{
    if !begins(text, at, letter_of(row)) {
        return None;
    }
    numbers_at(text, at, row, out)
}

// The fault of a row with bad digits up to a byte that is due: that the line has no end, or other fields, is told
// before them.
fn row_fault(text: &[u8], at: usize, row: Row) -> Fault
    requires { (at ≤ length text.now) × BadNumbers row text.now at }
    ensures { RowRefused row text.now at result }
{
    let e = find(text, at, LINE_END);
    if e == text.len() {
        Fault::Absent
    } else if !fields(&text[at..e], letter_of(row), count_of(row)) {
        Fault::Shape
    } else {
        Fault::Digits
    }
}

// The row at a place, into columns of zeros: the place where its line ends, or its fault. Where it is refused, the
// columns may hold anything.
pub fn row_at(text: &[u8], at: usize, row: Row, out: &mut [u16]) -> Result<usize, Fault>
    requires { (at ≤ length text.now) × (length out.old ≡ columns) × (get_or (numbers_in row out.old) 0 0 ≡ 0) }
    ensures { RowAt row text.now at (numbers_in row out.new) result }
{
    // No `ok_or_else`: that its closure may be called there, as `row_fault` requires, did not prove.
    let Some(scan) = scan_row(text, at, row, out) else {
        return Err(row_fault(text, at, row));
    };
    if scan.outside {
        return Err(Fault::Range);
    }
    Ok(scan.end)
}
