// The lines of the extra starts.
ghost use Rattle.std.specs.Prelude.{◌≡◌, get_or};
ghost use Rattle.text.specs.Bytes.{byte_i};
ghost use Rattle.text.specs.Decides.{Decides};
ghost use Rattle.reader.specs.Inner.ReadSoFar.{AfterAllActions, AfterStarts, Further};

use crate::answers::{LineFault, LineStart};
use model::put::put_extra_start;
use text::Head;
use text::line::is_letter;
use text::scan::start_at;

// Whether the line at a place begins with `I`; past the text there is none.
fn is_start_line(text: &[u8], at: usize) -> bool
    ensures { Decides result (get_or text.now at 0 ≡ byte_i) }
{
    at < text.len() && is_letter(text[at], b'I')
}

// The lines of the extra starts, into a store that holds the first line and the actions.
pub fn starts(
    text: &[u8],
    start: LineStart,
    head: Head,
    out: &mut [u16],
) -> Result<LineStart, LineFault>
    requires { AfterAllActions head text.now start out.old }
    ensures { Further (λ next. AfterStarts head text.now next out.new)
        text.now result }
{
    let mut from = start;
    let mut last = head.start;
    // The lines themselves say how many there are, and no count.
    let mut i = 0;
    while is_start_line(text, from.at) {
        let p = start_at(text, from.at, head, last).map_err(|fault| from.faulty(fault))?;
        put_extra_start(out, i, p.stated);
        last = p.stated;
        from = from.next(p.next);
        i += 1;
    }
    Ok(from)
}
