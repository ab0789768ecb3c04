// `print_in_form`, the path from a text to its page or roll: what Read reads is printed as Page or Roll does. `print`
// is that path to the page.
ghost use Rattle.std.specs.Prelude.{[], ◌∷◌, ◌≡◌, ◌≤◌, length};
ghost use Rattle.text.specs.Faults.{answers, refuses};
ghost use Rattle.text.specs.Limits.{page_length};
ghost use Rattle.read_write.specs.ReadPromise.{read_outcome};
ghost use Rattle.writer.specs.Wrote.{Wrote};
ghost use Rattle.lines.specs.PageLines.{fault_bytes};
ghost use Rattle.lines.specs.declared.lines.Form.TheVariants.{Page};
ghost use Rattle.page.specs.Inner.PageLists.{LongLists};
ghost use Rattle.page.specs.Claim.{PrintClaim};
ghost use Rattle.page.specs.PrintPromise.{print_outcome, PrintPromise};
ghost use Rattle.page.specs.Inner.Refusals.{PlaceFits, FaultWritten};

use crate::page::{first_short, page_good};
use lines::lines::{Form, PagePosition};
use read_write::read::{ReadRefusal, read};
use text::fault_number;

// A lent list is below its least length, told by its place among those lent, from 1.
#[derive(Clone, Copy, PartialEq, Eq)]
pub struct ShortList(pub usize);

// The number and the place of a refusal.
#[derive(Clone, Copy)]
struct Refusal {
    number: u16,
    place: u16,
}

fn refusal_of(read: ReadRefusal) -> Refusal
    requires { PlaceFits read }
    ensures { read_outcome (Err read) ≡ refuses result.number result.place }
{
    match read {
        ReadRefusal::ShortList(place) => Refusal {
            number: 21,
            place: place as u16,
        },
        ReadRefusal::TooLong => Refusal {
            number: 1,
            place: 0,
        },
        ReadRefusal::Faulty(bad) => Refusal {
            number: fault_number(bad.fault),
            place: bad.line as u16,
        },
    }
}

// The line `F,number,place`: no line of the page, and not padded on the roll.
pub fn refusal_line(number: u16, place: u16, out: &mut [u8]) -> PagePosition
    requires { page_length ≤ length out.old }
    ensures { Wrote out.old 0 (fault_bytes number place) out.new result.at.at }
{
    let start = PagePosition::start();
    start
        .fault_text(out, number, place)
        .line_end(out, 0, Form::Page)
}

// The line of a text that Read refuses.
pub fn fault_line(read: ReadRefusal, out: &mut [u8]) -> PagePosition
    requires { PlaceFits read × (page_length ≤ length out.old) }
    ensures { FaultWritten (read_outcome (Err read)) out.old out.new result.at.at }
{
    let refusal = refusal_of(read);
    refusal_line(refusal.number, refusal.place, out)
}

// Prints the page of a text in a form, or why Read refuses it, where all lists are long enough.
fn print_text(
    text: &[u8],
    store: &mut [u16],
    distances: &mut [u16],
    table: &mut [u8],
    run: &mut [u16],
    word: &mut [u16],
    out: &mut [u8],
    form: Form,
) -> PagePosition
    requires { LongLists form store.old distances.old table.old run.old word.old out.old }
    ensures { PrintPromise form text.now store.old distances.old
        table.old run.old word.old out.old (answers (result.at.at ∷ []))
        store.new distances.new table.new run.new word.new
        out.new }
{
    match read(text, store) {
        Ok(()) => page_good(store, distances, table, run, word, out, form),
        Err(refusal) => fault_line(refusal, out),
    }
}

// The path from a text to its page or roll, which `print` and `printed` call: reads the text and prints its page in a
// form, or why Read refuses it, and answers the bytes written.
pub fn print_in_form(
    text: &[u8],
    store: &mut [u16],
    distances: &mut [u16],
    table: &mut [u8],
    run: &mut [u16],
    word: &mut [u16],
    out: &mut [u8],
    form: Form,
) -> Result<usize, ShortList>
    ensures print_promise { PrintPromise form text.now store.old distances.old
        table.old run.old word.old out.old (print_outcome result)
        store.new distances.new table.new run.new word.new
        out.new }
    ensures print_claim { PrintClaim form text.now (print_outcome result) word.new out.new }
{
    let short = first_short(
        store.len(),
        distances.len(),
        table.len(),
        run.len(),
        word.len(),
        out.len(),
        form,
    );
    if let Some(place) = short {
        // The text, of no least length, is list 1.
        return Err(ShortList(place + 1));
    }
    let end = print_text(text, store, distances, table, run, word, out, form);
    Ok(end.at.at)
}

// The page of a text.
pub fn print(
    text: &[u8],
    store: &mut [u16],
    distances: &mut [u16],
    table: &mut [u8],
    run: &mut [u16],
    word: &mut [u16],
    out: &mut [u8],
) -> Result<usize, ShortList>
    ensures print_promise { PrintPromise Page text.now store.old distances.old
        table.old run.old word.old out.old (print_outcome result)
        store.new distances.new table.new run.new word.new
        out.new }
    ensures print_claim { PrintClaim Page text.now (print_outcome result) word.new out.new }
{
    print_in_form(text, store, distances, table, run, word, out, Form::Page)
}
