// Standard input to standard output: the page of a text, or the line that says why it is not read.

#![tactic(auto)]

ghost use Rattle.std.specs.Prelude.{◌≤◌, ◌<◌, length, take};
ghost use Rattle.io.specs.Counts.{IsPrefixLen};
ghost use Rattle.text.specs.Limits.{text_limit, page_length};
ghost use Rattle.lines.specs.declared.lines.Form.TheVariants.{Page};
ghost use Rattle.page.specs.Prints.{Prints};

use lines::lines::Form;
use text::limits::{INPUT_LENGTH, PAGE_LENGTH};

// The file number of standard input.
const STDIN: i32 = 0;

// The file number of standard output.
const STDOUT: i32 = 1;

// Puts what is printed of the first n bytes of the input at the front of `out`, and answers how many bytes that is. The
// caller owes an input list that holds a byte more than the longest text, and room for any page.
fn page_of_input(input: &[u8], n: usize, out: &mut [u8]) -> usize
    requires text_limit_in_bounds { (text_limit < length input.now) × IsPrefixLen n input.now }
    requires page_length_in_bounds { page_length ≤ length out.old }
    ensures prefix_len { IsPrefixLen result out.new }
    ensures prints { Prints Page (take n input.now) (take result out.new) }
{
    page::printed::printed(&input[..n], out, Form::Page)
}

fn main() {
    let mut input = [0u8; INPUT_LENGTH];
    let mut out = [0u8; PAGE_LENGTH];
    let n = io::read_full(STDIN, &mut input);
    let length = page_of_input(&input, n, &mut out);
    io::write_all(STDOUT, &out[..length]);
}
