// A place in an output list, by value: each writer takes it and hands back where it ended. Document 01 asks for this
// form, so the list goes beside it and is no part of it.
ghost use Rattle.std.specs.Prelude.{◌≡◌, [], ◌∷◌, ℕ, ◌+◌, ◌≤◌, ◌<◌, length};
ghost use Rattle.text.specs.All.{All};
ghost use Rattle.text.specs.Numbers.{digits};
ghost use Rattle.model.specs.Text.{field};
ghost use Rattle.writer.specs.Wrote.{Wrote};

#[derive(Clone, Copy)]
pub struct Position {
    pub at: usize,
}

impl Position {
    pub fn start() -> Position
        ensures { result.at ≡ 0 }
    {
        Position { at: 0 }
    }

    pub fn byte(self, out: &mut [u8], b: u8) -> Position
        requires { self.at < length out.old }
        ensures { Wrote out.old self.at (b ∷ []) out.new result.at }
    {
        out[self.at] = b;
        Position { at: self.at + 1 }
    }

    // The decimal digits of n. By hand: with std's formatter there would be an error to handle that cannot occur.
    pub fn number(self, out: &mut [u8], n: u16) -> Position
        requires { self.at + length (digits n) ≤ length out.old }
        ensures { Wrote out.old self.at (digits n) out.new result.at }
    {
        if n < 10 {
            return self.byte(out, b'0' + (n as u8));
        }
        self.number(out, n / 10).byte(out, b'0' + ((n % 10) as u8))
    }

    // A comma and the digits of n.
    pub fn field(self, out: &mut [u8], n: u16) -> Position
        requires { self.at + length (field (digits n)) ≤ length out.old }
        ensures { Wrote out.old self.at (field (digits n)) out.new result.at }
    {
        self.byte(out, b',').number(out, n)
    }

    // The bytes of a text.
    pub fn text(self, out: &mut [u8], text: &[u8]) -> Position
        requires { self.at + length text.now ≤ length out.old }
        ensures { Wrote out.old self.at text.now out.new result.at }
    {
        let end = self.at + text.len();
        out[self.at..end].copy_from_slice(text);
        Position { at: end }
    }

    // The bytes of a name, which the store holds as numbers of 16 bits, so that they are copied one by one.
    pub fn name(self, out: &mut [u8], name: &[u16]) -> Position
        requires name_in_bounds { self.at + length name.now ≤ length out.old }
        requires all { All (λ (b : ℕ). b < 256) name.now }
        ensures { Wrote out.old self.at name.now out.new result.at }
    {
        let mut at = self;
        for &b in name {
            at = at.byte(out, b as u8);
        }
        at
    }
}
