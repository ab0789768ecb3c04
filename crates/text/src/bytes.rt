// The kinds of bytes.
ghost use Rattle.std.specs.Prelude.{◌≡◌};
ghost use Rattle.text.specs.Bytes.{kind_of};

// The kinds, by document 01's numbers, and no enum: `number_at` and `find` take a kind, and an enum has fewer values.
const OTHER: u8 = 0;

pub const DIGIT: u8 = 1;

pub const SMALL_LETTER: u8 = 2;

pub const CAPITAL: u8 = 3;

pub const COMMA: u8 = 4;

pub const LINE_END: u8 = 5;

// The kind of a byte, by its ranges.
pub fn kind(b: u8) -> u8
    ensures { result ≡ kind_of b }
{
    match b {
        b'0'..=b'9' => DIGIT,
        b'a'..=b'z' => SMALL_LETTER,
        b'A'..=b'Z' => CAPITAL,
        b',' => COMMA,
        b'\n' => LINE_END,
        _ => OTHER,
    }
}
