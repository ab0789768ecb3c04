// Number fields.
ghost use Rattle.std.proofs.Math.Option.{some};
ghost use Rattle.std.specs.Prelude.{◌≡◌, ◌≤◌, length};
ghost use Rattle.text.specs.Decides.{Decides};
ghost use Rattle.text.specs.Numbers.{below, in_bounds?, bounded};
ghost use Rattle.text.specs.Inner.NumberAt.{Separator, DigitsFound, FieldEnds, NumberShape, NumberRead};

use crate::bytes::{DIGIT, kind};
use crate::limits::DIGIT_LIMIT;

// The numbers that a field may hold: from `least` on, and below `limit`.
#[derive(Clone, Copy)]
pub struct Bounds {
    pub least: u16,
    pub limit: u16,
}

// The numbers below a limit.
pub(crate) fn below(limit: u16) -> Bounds
    ensures { result ≡ below limit }
{
    Bounds { least: 0, limit }
}

// Why a number field holds no number within its bounds: its digits are bad, or the number is outside them.
#[derive(Clone, Copy, PartialEq, Eq)]
pub enum NumberFault {
    BadDigits,
    Outside,
}

// What the field at a place holds that ends before the next byte of the kind that is due, and the place of that byte,
// where its digits are not bad.
#[derive(Clone, Copy)]
pub struct NumberAt {
    pub number: Result<u16, NumberFault>,
    pub end: usize,
}

// The value of the digits at a place, and the place after them.
#[derive(Clone, Copy)]
pub struct Digits {
    pub value: u32,
    pub end: usize,
}

// Whether a number is within its bounds.
pub fn within(bounds: Bounds, n: u32) -> bool
    ensures { result ≡ in_bounds? bounds n }
{
    u32::from(bounds.least) <= n && n < u32::from(bounds.limit)
}

// What a field of good digits holds, by their value.
fn bounded_number(bounds: Bounds, n: u32) -> Result<u16, NumberFault>
    ensures { result ≡ bounded bounds (some n) }
{
    if within(bounds, n) {
        Ok(n as u16)
    } else {
        Err(NumberFault::Outside)
    }
}

// The digits at a place, as many as a number has at most, which a byte of the kind `due` follows; or the bytes up to
// such a byte are no number.
fn digits_at(s: &[u8], at: usize, due: u8) -> Option<Digits>
    requires { (at ≤ length s.now) × Separator due }
    ensures { DigitsFound due s.now at result }
{
    let mut value: u32 = 0;
    for i in at..s.len() {
        let b = s[i];
        let k = kind(b);
        if k != DIGIT {
            return (k == due).then_some(Digits { value, end: i });
        }
        if DIGIT_LIMIT <= i - at {
            return None;
        }
        value = value * 10 + u32::from(b - b'0');
    }
    None
}

// Whether the digits from a place on and below `end`, where their field ends, are a number: at least one, and the first
// of several is not 0.
fn is_number(s: &[u8], at: usize, end: usize) -> bool
    requires { (at ≤ end) × (end ≤ length s.now) × FieldEnds s.now end }
    ensures { Decides result (NumberShape s.now at end) }
{
    at < end && (end == at + 1 || s[at] != b'0')
}

// The number field at a place, up to the next byte of the kind `due`. Where that is not the byte which ends the field,
// for the line has no end or other fields, the bytes up to it are more than digits, and bad.
pub fn number_at(s: &[u8], at: usize, due: u8, bounds: Bounds) -> NumberAt
    requires { (at ≤ length s.now) × Separator due }
    ensures { NumberRead bounds due s.now at result.number result.end }
{
    match digits_at(s, at, due) {
        Some(Digits { value, end }) if is_number(s, at, end) => NumberAt {
            number: bounded_number(bounds, value),
            end,
        },
        _ => NumberAt {
            number: Err(NumberFault::BadDigits),
            end: at,
        },
    }
}
