// The text behind its first line: actions, extra starts, steps and the end, read into a store of zeros that is copied
// out where all is well.
ghost use Rattle.std.specs.Prelude.{◌≡◌, ◌≤◌, length, drop};
ghost use Rattle.text.specs.Bytes.{line_end};
ghost use Rattle.text.specs.Split.{split};
ghost use Rattle.text.specs.Limits.{store_length};
ghost use Rattle.text.specs.Inner.LineAnswers.{head_read};
ghost use Rattle.reader.specs.Inner.ReadSoFar.{AfterHead, AfterActions};
ghost use Rattle.reader.specs.Inner.ReadSoFar.{Through, ReadOut};
ghost use Rattle.reader.specs.Inner.FirstLine.{AfterLine, first_line, AfterFirst};

use crate::actions::actions;
use crate::answers::{LineFault, LineStart};
use crate::end::last_line;
use crate::starts::starts;
use crate::steps::steps;
use model::put::{copy, put_head};
use text::bytes::LINE_END;
use text::limits::STORE_LENGTH;
use text::line::find;
use text::scan::head_at;
use text::{Fault, Head};

// The line at a place, taken as the first one.
pub fn first_line(text: &[u8], at: usize) -> Result<Head, Fault>
    ensures { head_read result ≡ first_line (split line_end (drop at text.now)) }
{
    if text.len() < at {
        return Err(Fault::Absent);
    }
    head_at(text, at)
}

// The place after the line at a place, or the text's end where the line has none.
pub fn after_line(text: &[u8], at: usize) -> usize
    ensures { AfterLine text.now at result }
{
    if text.len() < at {
        return text.len();
    }
    let e = find(text, at, LINE_END);
    if e == text.len() {
        return e;
    }
    e + 1
}

// The lines behind the first, into a store that holds what the first states.
fn lines(text: &[u8], start: LineStart, head: Head, out: &mut [u16]) -> Result<(), LineFault>
    requires { AfterActions head text.now start 0 out.old }
    ensures { Through text.now out.new result }
{
    let acted = actions(text, start, head, out)?;
    let started = starts(text, acted, head, out)?;
    let stepped = steps(text, started, head, out)?;
    last_line(text, stepped, out)
}

// The lines behind a good first line.
fn model(text: &[u8], start: LineStart, head: Head, store: &mut [u16]) -> Result<(), LineFault>
    requires { AfterHead head text.now start × (store_length ≤ length store.old) }
    ensures { ReadOut text.now store.old result store.new }
{
    let mut local = [0u16; STORE_LENGTH];
    put_head(&mut local, head);
    lines(text, start, head, &mut local)?;
    copy(&local, store);
    Ok(())
}

// What the text comes to, by its first line and the place after that.
pub fn body(
    text: &[u8],
    at: usize,
    first: Result<Head, Fault>,
    store: &mut [u16],
) -> Result<(), LineFault>
    requires { AfterFirst first text.now at × (store_length ≤ length store.old) }
    ensures { ReadOut text.now store.old result store.new }
{
    let head = first.map_err(|fault| LineFault { fault, line: 1 })?;
    model(text, LineStart { at, line: 2 }, head, store)
}
