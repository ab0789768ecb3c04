// A line of the receipt roll, of 42 columns.
ghost use Rattle.std.specs.Prelude.{[], ◌∷◌, ◌++◌, ◌≡◌, ◌+◌, ◌-◌, ◌≤◌, ◌<◌, length};
ghost use Rattle.text.specs.Bytes.{byte_dash, byte_line_end};
ghost use Rattle.text.specs.Numbers.{digits};
ghost use Rattle.writer.specs.Wrote.{Wrote};
ghost use Rattle.columns.specs.Rows.{roll_width, blanks, flush_right};
ghost use Rattle.columns.specs.StateRows.{number_width};

use writer::position::Position;

pub const WIDTH: usize = 42;

// The columns of a state, a distance or a class.
const NUMBER_WIDTH: usize = 3;

// A line that is being written, by value: how far it is written, and where it began.
#[derive(Clone, Copy)]
pub struct RollLine {
    pub at: Position,
    pub begin: usize,
}

// How many digits n has, of at most three.
fn digit_count(n: u16) -> usize
    requires { n < 1000 }
    ensures { result ≡ length (digits n) }
{
    match n {
        0..=9 => 1,
        10..=99 => 2,
        _ => 3,
    }
}

impl RollLine {
    // A line that begins where the last one ended.
    pub fn start(at: Position) -> RollLine
        ensures { (result.at.at ≡ at.at) × (result.begin ≡ at.at) }
    {
        RollLine { at, begin: at.at }
    }

    // n blanks.
    pub fn blanks(self, out: &mut [u8], n: usize) -> RollLine
        requires { self.at.at + n ≤ length out.old }
        ensures { Wrote out.old self.at.at (blanks n) out.new result.at.at
            × (result.begin ≡ self.begin) }
    {
        let end = self.at.at + n;
        out[self.at.at..end].fill(b' ');
        RollLine {
            at: Position { at: end },
            ..self
        }
    }

    // A number of at most three digits, flush right.
    pub fn number(self, out: &mut [u8], n: u16) -> RollLine
        requires { (n < 1000) × (self.at.at + number_width ≤ length out.old) }
        ensures { Wrote out.old self.at.at (flush_right number_width (digits n)) out.new
            result.at.at × (result.begin ≡ self.begin) }
    {
        let row = self.blanks(out, NUMBER_WIDTH - digit_count(n));
        RollLine {
            at: row.at.number(out, n),
            ..row
        }
    }

    // `-`, flush right.
    pub fn dash(self, out: &mut [u8]) -> RollLine
        requires { self.at.at + number_width ≤ length out.old }
        ensures { Wrote out.old self.at.at (flush_right number_width (byte_dash ∷ []))
            out.new result.at.at × (result.begin ≡ self.begin) }
    {
        let row = self.blanks(out, NUMBER_WIDTH - 1);
        RollLine {
            at: row.at.byte(out, b'-'),
            ..row
        }
    }

    // Blanks up to the last column, and the line end.
    pub fn end(self, out: &mut [u8]) -> Position
        requires begin_le_at { (self.begin ≤ self.at.at) × (self.at.at ≤ self.begin + roll_width) }
        requires roll_width_in_bounds { self.begin + roll_width < length out.old }
        ensures { Wrote out.old self.at.at
            (blanks (roll_width - (self.at.at - self.begin)) ++ (byte_line_end ∷ [])) out.new result.at }
    {
        let used = self.at.at - self.begin;
        self.blanks(out, WIDTH - used).at.byte(out, b'\n')
    }
}
