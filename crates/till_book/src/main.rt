// Standard input to standard output: the book of a text's model, or the line that says why the text is not read.

#![tactic(auto)]

ghost use Rattle.std.specs.Prelude.{◌≤◌, ◌<◌, length, take};
ghost use Rattle.io.specs.Counts.{IsPrefixLen};
ghost use Rattle.text.specs.Limits.{text_limit, book_length};
ghost use Rattle.till_book.specs.PrintsBook.{PrintsBook};

use judge::book::book_good;
use page::print::fault_line;
use read_write::read::read;
use text::limits::{BOOK_LENGTH, INPUT_LENGTH, STORE_LENGTH, TABLE_LENGTH};

// The file number of standard input.
const STDIN: i32 = 0;

// The file number of standard output.
const STDOUT: i32 = 1;

// Puts what is printed of the first n bytes of the input at the front of `out`, and answers how many bytes that is. The
// caller owes an input list that holds a byte more than the longest text, and room for a book.
fn book_of_input(input: &[u8], n: usize, out: &mut [u8]) -> usize
    requires text_limit_in_bounds { (text_limit < length input.now) × IsPrefixLen n input.now }
    requires book_length_in_bounds { book_length ≤ length out.old }
    ensures prefix_len { IsPrefixLen result out.new }
    ensures prints_book { PrintsBook (take n input.now) (take result out.new) }
{
    let mut store = [0u16; STORE_LENGTH];
    match read(&input[..n], &mut store) {
        Ok(()) => {
            let mut table = [0u8; TABLE_LENGTH];
            book_good(&store, &mut table, out);
            BOOK_LENGTH
        }
        Err(refusal) => fault_line(refusal, out).at.at,
    }
}

fn main() {
    let mut input = [0u8; INPUT_LENGTH];
    let mut out = [0u8; BOOK_LENGTH];
    let n = io::read_full(STDIN, &mut input);
    let length = book_of_input(&input, n, &mut out);
    io::write_all(STDOUT, &out[..length]);
}
