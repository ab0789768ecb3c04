// The lines of the actions.
ghost use Rattle.std.specs.Prelude.{◌+◌, ◌<◌};
ghost use Rattle.reader.specs.Inner.ReadSoFar.{AfterActions, AfterAllActions, Further};

use crate::answers::{LineFault, LineStart};
use model::levels::some_high;
use model::names::used;
use model::put::put_action;
use text::bytes::LINE_END;
use text::line::{action_line, find};
use text::{Action, Fault, Head};

// The line of action i.
fn action(
    text: &[u8],
    start: LineStart,
    head: Head,
    i: u16,
    out: &mut [u16],
) -> Result<LineStart, LineFault>
    requires { AfterActions head text.now start i out.old × (i < head.actions) }
    ensures { Further (λ next. AfterActions head text.now next (i + 1) out.new)
        text.now result }
{
    let at = start.at;
    let e = find(text, at, LINE_END);
    if e == text.len() {
        return Err(start.faulty(Fault::Absent));
    }
    let level = action_line(&text[at..e]).map_err(|fault| start.faulty(fault))?;
    let name = &text[at + 4..e];
    if used(out, i, name) {
        return Err(start.faulty(Fault::Repeated));
    }
    put_action(out, Action(i), level, name);
    Ok(start.next(e + 1))
}

// The lines of the actions, one of which must be high, into a store that holds what the first line states.
pub fn actions(
    text: &[u8],
    start: LineStart,
    head: Head,
    out: &mut [u16],
) -> Result<LineStart, LineFault>
    requires { AfterActions head text.now start 0 out.old }
    ensures { Further (λ next. AfterAllActions head text.now next out.new)
        text.now result }
{
    let mut from = start;
    for i in 0..head.actions {
        from = action(text, from, head, i, out)?;
    }
    if !some_high(out, head.actions) {
        return Err(LineFault {
            fault: Fault::NoHigh,
            line: from.line - 1,
        });
    }
    Ok(from)
}
