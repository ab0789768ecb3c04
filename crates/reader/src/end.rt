// The last line.
ghost use Rattle.reader.specs.Inner.ReadSoFar.{AfterSteps, Through};

use crate::answers::{LineFault, LineStart};
use text::Fault;
use text::bytes::LINE_END;
use text::line::{find, is_letter};

// The last line, and nothing after it.
pub fn last_line(text: &[u8], start: LineStart, out: &[u16]) -> Result<(), LineFault>
    requires { AfterSteps text.now start out.now }
    ensures { Through text.now out.now result }
{
    let at = start.at;
    let e = find(text, at, LINE_END);
    if e == text.len() {
        return Err(start.faulty(Fault::Absent));
    }
    if e != at + 1 || !is_letter(text[at], b'E') {
        return Err(start.faulty(Fault::Shape));
    }
    if e + 1 != text.len() {
        // "bytes after `E`", which have the number of an absent line.
        return Err(start.next(e + 1).faulty(Fault::Absent));
    }
    Ok(())
}
