// What a program prints of a text.
ghost use Rattle.std.specs.Prelude.{◌≡◌, ◌≤◌, length, take, drop};
ghost use Rattle.lines.specs.Roll.{form_length};
ghost use Rattle.page.specs.Prints.{Prints};

use crate::print::print_in_form;
use lines::lines::Form;
use text::limits::{DISTANCES_LENGTH, RUN_LENGTH, STORE_LENGTH, TABLE_LENGTH, WORD_LENGTH};

// Puts what is printed of the text in a form at the front of `out`, which keeps what stood past it, and answers how
// many bytes that is. The caller owes room for any page in that form.
pub fn printed(text: &[u8], out: &mut [u8], form: Form) -> usize
    requires { form_length form ≤ length out.old }
    ensures upper_bound { (result ≤ length out.new) × (result ≡ length (take result out.new)) }
    ensures prints { Prints form text.now (take result out.new) }
    ensures out_unchanged { drop result out.new ≡ drop result out.old }
{
    let mut store = [0u16; STORE_LENGTH];
    let mut distances = [0u16; DISTANCES_LENGTH];
    let mut table = [0u8; TABLE_LENGTH];
    let mut run = [0u16; RUN_LENGTH];
    let mut word = [0u16; WORD_LENGTH];
    let printed = print_in_form(
        text,
        &mut store,
        &mut distances,
        &mut table,
        &mut run,
        &mut word,
        out,
        form,
    );
    // Each list has its least length.
    printed.unwrap_or(0)
}
