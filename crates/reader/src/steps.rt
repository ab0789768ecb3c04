// The lines of the steps.
ghost use Rattle.reader.specs.Inner.ReadSoFar.{AfterStarts, AfterSteps, Further};

use crate::answers::{LineFault, LineStart};
use model::put::put_step;
use text::scan::step_at;
use text::{Head, Step};

// The lines of the steps, into a store that holds the first line, the actions and the extra starts.
pub fn steps(
    text: &[u8],
    start: LineStart,
    head: Head,
    out: &mut [u16],
) -> Result<LineStart, LineFault>
    requires { AfterStarts head text.now start out.old }
    ensures { Further (λ next. AfterSteps text.now next out.new)
        text.now result }
{
    let mut from = start;
    let mut last = None;
    for j in 0..head.steps {
        let step = step_at(text, from.at, head, last).map_err(|fault| from.faulty(fault))?;
        put_step(out, Step(j), step.stated);
        last = Some(step.stated);
        from = from.next(step.next);
    }
    Ok(from)
}
