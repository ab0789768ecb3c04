// The lines and fields of the text of a till model, and the numbers that they state.

#![tactic(auto)]

pub mod bytes;
pub mod limits;
pub mod line;
pub mod number;
pub mod row;
pub mod scan;

ghost use Rattle.std.specs.Prelude.{◌≡◌};
ghost use Rattle.text.specs.Faults.{fault_number};

// A state number never stands where an action number or a step number is meant.
#[derive(Clone, Copy, PartialEq, Eq, PartialOrd, Ord)]
pub struct State(pub u16);

#[derive(Clone, Copy, PartialEq, Eq, PartialOrd, Ord)]
pub struct Action(pub u16);

#[derive(Clone, Copy, PartialEq, Eq, PartialOrd, Ord)]
pub struct Step(pub u16);

// What line 1 of a text states.
#[derive(Clone, Copy, PartialEq, Eq)]
pub struct Head {
    pub states: u16,
    pub actions: u16,
    pub steps: u16,
    pub start: State,
}

// What the line of a step states.
#[derive(Clone, Copy, PartialEq, Eq, PartialOrd, Ord)]
pub struct StepLine {
    pub source: State,
    pub action: Action,
    pub target: State,
}

// Why a line is refused: it is absent or has no line end, or bytes follow the last line; its letter, field count, level
// or name is wrong; a number field is not 1 to 5 digits without a leading zero; a number is outside its range; a name
// was used before; a step is not above the one before it; an extra start is not above the one before it, the first not
// above the start in line 1; no action is high, which is told of the last action's line.
#[derive(Clone, Copy, PartialEq, Eq)]
pub enum Fault {
    Absent,
    Shape,
    Digits,
    Range,
    Repeated,
    Order,
    StartOrder,
    NoHigh,
}

// The document's number of a fault. It is asked for by this name, to which an `impl From` would be a second one.
pub fn fault_number(fault: Fault) -> u16
    ensures { result ≡ fault_number fault }
{
    match fault {
        Fault::Absent => 32,
        Fault::Shape => 2,
        Fault::Digits => 31,
        Fault::Range => 3,
        Fault::Repeated => 4,
        Fault::Order => 5,
        Fault::StartOrder => 33,
        Fault::NoHigh => 35,
    }
}
