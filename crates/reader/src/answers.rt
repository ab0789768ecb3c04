// What reading some lines of a text comes to: the start of the line after them, or the first bad line.
ghost use Rattle.std.specs.Prelude.{◌≡◌, ◌+◌, ◌^◌, ◌<◌};

use text::Fault;

// Where a line begins: its place in the text, and its number.
#[derive(Clone, Copy)]
pub struct LineStart {
    pub at: usize,
    pub line: usize,
}

// A bad line: its fault, and its number.
#[derive(Clone, Copy, PartialEq, Eq)]
pub struct LineFault {
    pub fault: Fault,
    pub line: usize,
}

impl LineStart {
    // The line has a fault.
    pub(crate) fn faulty(self, fault: Fault) -> LineFault
        ensures { result ≡ record { fault = fault; line = self.line } }
    {
        LineFault {
            fault,
            line: self.line,
        }
    }

    // The next line begins at a place.
    pub(crate) fn next(self, at: usize) -> LineStart
        requires { self.line + 1 < 2 ^ 64 }
        ensures { result ≡ record { at = at; line = self.line + 1 } }
    {
        LineStart {
            at,
            line: self.line + 1,
        }
    }
}
