// Line 1 and the lines of extra starts and of steps, as they stand in a text.
ghost use Rattle.std.specs.Prelude.{List, ◌≡◌, ℕ, ◌≤◌, length};
ghost use Rattle.text.specs.declared.StepLine.{StepLine};
ghost use Rattle.text.specs.Model.{last_start};
ghost use Rattle.text.specs.Lines.{start_of, step_of};
ghost use Rattle.text.specs.Inner.LineAnswers.{Last};
ghost use Rattle.text.specs.Inner.Scan.{HeadAt, StartAtRead, StepAtRead};

use crate::line::is_above;
use crate::row::{COLUMNS, Row, row_at};
use crate::{Action, Fault, Head, State, StepLine};

// What a line states, and the place after it.
#[derive(Clone, Copy)]
pub struct Taken<T> {
    pub stated: T,
    pub next: usize,
}

// Line 1 at a place: `M,states,actions,steps,start`.
pub fn head_at(text: &[u8], at: usize) -> Result<Head, Fault>
    requires { at ≤ length text.now }
    ensures { HeadAt text.now at result }
{
    let mut ns = [0u16; COLUMNS];
    row_at(text, at, Row::HeadRow, &mut ns)?;
    Ok(Head {
        states: ns[0],
        actions: ns[1],
        steps: ns[2],
        start: State(ns[3]),
    })
}

// The line of an extra start at a place, where `last` is the start before it: `I,state`.
pub fn start_at(text: &[u8], at: usize, head: Head, last: State) -> Result<Taken<State>, Fault>
    requires { at ≤ length text.now }
    ensures { (before : List ℕ) → last_start head.start.0 before ≡ last.0
        → StartAtRead (start_of head before) text.now at result }
{
    let mut ns = [0u16; COLUMNS];
    let end = row_at(text, at, Row::StartRow(head), &mut ns)?;
    let stated = State(ns[3]);
    if stated <= last {
        return Err(Fault::StartOrder);
    }
    Ok(Taken {
        stated,
        next: end + 1,
    })
}

// The line of a step at a place, where `last` is the step before it, if there is one: `S,source,action,target`.
pub fn step_at(
    text: &[u8],
    at: usize,
    head: Head,
    last: Option<StepLine>,
) -> Result<Taken<StepLine>, Fault>
    requires { at ≤ length text.now }
    ensures { (before : List StepLine) → Last before last → StepAtRead (step_of head before) text.now at result }
{
    let mut ns = [0u16; COLUMNS];
    let end = row_at(text, at, Row::StepRow(head), &mut ns)?;
    let stated = StepLine {
        source: State(ns[1]),
        action: Action(ns[2]),
        target: State(ns[3]),
    };
    if last.is_some_and(|step| !is_above(step, stated)) {
        return Err(Fault::Order);
    }
    Ok(Taken {
        stated,
        next: end + 1,
    })
}
