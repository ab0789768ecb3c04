// The reader: a text, and how far it has been read. Each method takes it apart, and leaves the work to a function
// on a slice and a number.
ghost use Rattle.std.specs.Prelude.{◌≡◌, ◌≤◌, length, drop};
ghost use Rattle.text.specs.Limits.{store_length};
ghost use Rattle.text.specs.Bytes.{line_end};
ghost use Rattle.text.specs.Split.{split};
ghost use Rattle.text.specs.Inner.LineAnswers.{head_read};
ghost use Rattle.reader.specs.Inner.ReadSoFar.{ReadOut};
ghost use Rattle.reader.specs.Inner.FirstLine.{AfterLine, AfterFirst, first_line};

use crate::answers::LineFault;
use crate::body::{after_line, body, first_line};
use text::{Fault, Head};

#[derive(Clone, Copy)]
pub struct Reader<'a> {
    pub text: &'a [u8],
    pub at: usize,
}

impl<'a> Reader<'a> {
    // At the start of a text.
    pub fn new(text: &'a [u8]) -> Reader<'a>
        ensures { (result.text ≡ text.entry) × (result.at ≡ 0) }
    {
        Reader { text, at: 0 }
    }

    // The line ahead, taken as the first one.
    pub fn first(self) -> Result<Head, Fault>
        ensures { head_read result ≡ first_line (split line_end (drop self.entry.at self.entry.text.now)) }
    {
        first_line(self.text, self.at)
    }

    // Past the line ahead.
    pub fn past(self) -> Reader<'a>
        ensures { (result.text ≡ self.entry.text) × AfterLine self.entry.text.now self.entry.at result.at }
    {
        let at = after_line(self.text, self.at);
        Reader {
            text: self.text,
            at,
        }
    }

    // The lines ahead, behind a first line, into a store.
    pub fn rest(self, first: Result<Head, Fault>, store: &mut [u16]) -> Result<(), LineFault>
        requires { AfterFirst first self.text.now self.at × (store_length ≤ length store.old) }
        ensures { ReadOut self.entry.text.now store.old result store.new }
    {
        body(self.text, self.at, first, store)
    }
}

// The lines of a text.
pub fn read_lines(text: &[u8], store: &mut [u16]) -> Result<(), LineFault>
    requires { store_length ≤ length store.old }
    ensures { ReadOut text.now store.old result store.new }
{
    let r = Reader::new(text);
    let first = r.first();
    r.past().rest(first, store)
}
