// Standard input to standard output: a book and then a text. Nothing is printed of a sound book, else the line of its
// first bad entry, or the line that says why the text is not read.

#![tactic(auto)]

ghost use Rattle.std.specs.Prelude.{◌≤◌, ◌<◌, length, take};
ghost use Rattle.io.specs.Counts.{IsPrefixLen};
ghost use Rattle.text.specs.Limits.{text_limit, page_length, book_length};
ghost use Rattle.books.specs.Checks.{checked_outcome};
ghost use Rattle.till_check.specs.PrintsCheck.{PrintsCheck};
ghost use Rattle.till_check.specs.Inner.Found.{PlaceFits, FoundTold};

use books::check::BadEntry;
use judge::check::check_good;
use page::print::{fault_line, refusal_line};
use read_write::read::read;
use text::limits::{BOOK_LENGTH, INPUT_LENGTH, PAGE_LENGTH, STORE_LENGTH};

// The file number of standard input.
const STDIN: i32 = 0;

// The file number of standard output.
const STDOUT: i32 = 1;

// Puts the line of a bad entry at the front of `out`, or nothing, and answers how many bytes that is.
fn found_line(found: Result<(), BadEntry>, out: &mut [u8]) -> usize
    requires { PlaceFits (checked_outcome found) × (page_length ≤ length out.old) }
    ensures { FoundTold (checked_outcome found) result out.new }
{
    match found {
        Ok(()) => 0,
        Err(bad) => refusal_line(34, bad.0 as u16, out).at.at,
    }
}

// Puts what is printed of a book and of the first n bytes of the input at the front of `out`, and answers how many
// bytes that is. The caller owes a whole book, an input list that holds a byte more than the longest text, and room for
// a line.
fn check_of_input(book: &[u8], input: &[u8], n: usize, out: &mut [u8]) -> usize
    requires book_length_in_bounds { book_length ≤ length book.now }
    requires text_limit_in_bounds { (text_limit < length input.now) × IsPrefixLen n input.now }
    requires page_length_in_bounds { page_length ≤ length out.old }
    ensures prefix_len { IsPrefixLen result out.new }
    ensures prints_check { PrintsCheck book.now (take n input.now) (take result out.new) }
{
    let mut store = [0u16; STORE_LENGTH];
    match read(&input[..n], &mut store) {
        Ok(()) => found_line(check_good(&store, book), out),
        Err(refusal) => fault_line(refusal, out).at.at,
    }
}

fn main() {
    let mut book = [0u8; BOOK_LENGTH];
    let mut input = [0u8; INPUT_LENGTH];
    let mut out = [0u8; PAGE_LENGTH];
    io::read_full(STDIN, &mut book);
    let n = io::read_full(STDIN, &mut input);
    let length = check_of_input(&book, &input, n, &mut out);
    io::write_all(STDOUT, &out[..length]);
}
