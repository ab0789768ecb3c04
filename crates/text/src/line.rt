// What one line of a text states.
ghost use Rattle.std.specs.Prelude.{[], ◌∷◌, ◌≡◌, ◌+◌, ◌≤◌, ◌<◌, length, drop};
ghost use Rattle.text.specs.Decides.{Decides};
ghost use Rattle.text.specs.Bytes.{byte_a};
ghost use Rattle.text.specs.Split.{split, index_of};
ghost use Rattle.text.specs.Model.{above?};
ghost use Rattle.text.specs.Lines.{fields_of, level_of, name_byte?, name?, action_fields};
ghost use Rattle.text.specs.Inner.LineAnswers.{action_read};
ghost use Rattle.text.specs.Inner.PartAnswers.{Fields, level_read};

use crate::bytes::{CAPITAL, COMMA, DIGIT, SMALL_LETTER, kind};
use crate::limits::{HIGH, LOW, NAME_LIMIT, RELEASE, SILENT};
use crate::{Fault, StepLine};

// The place of the first byte of a kind at or after `from`, the length where there is none.
pub fn find(s: &[u8], from: usize, k: u8) -> usize
    requires { from ≤ length s.now }
    ensures { result ≡ from + index_of k (drop from s.now) }
{
    for i in from..s.len() {
        if kind(s[i]) == k {
            return i;
        }
    }
    s.len()
}

// How many bytes of a kind there are.
fn count(s: &[u8], k: u8) -> usize
    ensures { length (split k s.now) ≡ result + 1 }
{
    s.iter().filter(|&&b| kind(b) == k).count()
}

// Whether a byte is a letter: of its kind, and then this one.
pub fn is_letter(b: u8, letter: u8) -> bool
    ensures { Decides result (b ≡ letter) }
{
    kind(b) == kind(letter) && b == letter
}

// Whether a line has a letter as its first field, and n more fields, which stand from place 2 on.
pub fn fields(line: &[u8], letter: u8, n: usize) -> bool
    requires { 0 < n }
    ensures { Fields letter n line.now result }
{
    count(line, COMMA) == n && find(line, 0, COMMA) == 1 && is_letter(line[0], letter)
}

// The level that a byte stands for, which is a capital by its kind.
fn level_of(b: u8) -> Option<u16>
    ensures { level_of (b ∷ []) ≡ level_read result }
{
    if kind(b) != CAPITAL {
        return None;
    }
    match b {
        b'L' => Some(LOW),
        b'D' => Some(RELEASE),
        b'H' => Some(HIGH),
        b'T' => Some(SILENT),
        _ => None,
    }
}

// Whether a byte may stand in a name.
fn is_name_byte(b: u8) -> bool
    ensures { result ≡ name_byte? b }
{
    matches!(kind(b), DIGIT | SMALL_LETTER)
}

// Whether a field is 1 to 12 small letters and digits.
fn is_name(f: &[u8]) -> bool
    ensures { result ≡ name? f.now }
{
    (1..=NAME_LIMIT as usize).contains(&f.len()) && f.iter().all(|&b| is_name_byte(b))
}

// `A,level,name`: the level, or the line's fault. The name stands from place 4 of the line on.
pub fn action_line(line: &[u8]) -> Result<u16, Fault>
    ensures { action_fields (fields_of byte_a 2 line.now) ≡ action_read line.now result }
{
    if !fields(line, b'A', 2) || find(line, 2, COMMA) != 3 {
        return Err(Fault::Shape);
    }
    let level = level_of(line[2]).ok_or(Fault::Shape)?;
    if !is_name(&line[4..]) {
        return Err(Fault::Shape);
    }
    Ok(level)
}

// Whether b stands above a: by source, then action, then target.
pub fn is_above(a: StepLine, b: StepLine) -> bool
    ensures { result ≡ above? a b }
{
    a < b
}
