// Sets of numbers below 128 as values.
ghost use Rattle.std.specs.Prelude.{◌⊎◌, ◌≡◌, ℕ, ◌+◌, ◌*◌, ◌≤◌, ◌<◌, length};
ghost use Rattle.std.specs.Int.Count.{ones};
ghost use Rattle.std.specs.Iterator.{at_most};
ghost use Rattle.text.specs.Decides.{Decides};
ghost use Rattle.text.specs.Limits.{state_limit};
ghost use Rattle.sets.specs.Inner.Sets.{Member, Joined};
ghost use Rattle.sets.specs.Inner.SetValues.{In, SetOf, LeastOf, GreatestOf, SetPut, Popped, words};

use text::limits::STATE_LIMIT;

// The bits of a word.
const WORD_BITS: u16 = 64;

// The last bit of a word, and the last number that a set can have.
const LAST_BIT: u16 = WORD_BITS - 1;

const LAST_NUMBER: u16 = STATE_LIMIT - 1;

// The word of the numbers below 64, and that of the others.
#[derive(Clone, Copy, PartialEq, Eq)]
pub struct Set(pub u64, pub u64);

impl Set {
    // Takes the least member out, if there is one.
    #[inline]
    pub fn pop(&mut self) -> Option<u16>
        ensures { Popped self.old result self.new }
    {
        if self.0 != 0 {
            let x = u64::trailing_zeros(self.0) as u16;
            self.0 &= self.0 - 1;
            return Some(x);
        }
        if self.1 != 0 {
            let x = WORD_BITS + u64::trailing_zeros(self.1) as u16;
            self.1 &= self.1 - 1;
            return Some(x);
        }
        None
    }
}

// The members of a set, from the least up.
#[derive(Drop)]
pub struct Members {
    left: Set,
}

impl Iterator for Members {
    type Item = u16;

    ghost next_gives = { λ s x t. Popped s.left x t.left };

    ghost remaining = { λ s. at_most (words s.left) };

    #[inline]
    fn next(&mut self) -> Option<u16> {
        self.left.pop()
    }
}

impl IntoIterator for Set {
    type Item = u16;

    type IntoIter = Members;

    #[inline]
    fn into_iter(self) -> Members
        ensures { result.left ≡ self }
    {
        Members { left: self }
    }
}

// The set without members.
pub fn none() -> Set
    ensures { SetOf (λ x. ⊥) result }
{
    Set(0, 0)
}

// The set of x alone.
pub fn only(x: u16) -> Set
    requires { x < state_limit }
    ensures { SetOf (λ y. y ≡ x) result }
{
    if x < WORD_BITS {
        return Set(1u64 << x, 0);
    }
    Set(0, 1u64 << (x - WORD_BITS))
}

// The members of both.
pub fn both(a: Set, b: Set) -> Set
    ensures { SetOf (λ x. In a x × In b x) result }
{
    Set(a.0 & b.0, a.1 & b.1)
}

// The members of either.
pub fn either(a: Set, b: Set) -> Set
    ensures { SetOf (λ x. In a x ⊎ In b x) result }
{
    Set(a.0 | b.0, a.1 | b.1)
}

// The members of a that are none of b.
pub fn without(a: Set, b: Set) -> Set
    ensures { SetOf (λ x. In a x × ¬ (In b x)) result }
{
    Set(a.0 & !b.0, a.1 & !b.1)
}

// Whether x is a member.
pub fn is_in(a: Set, x: u16) -> bool
    requires { x < state_limit }
    ensures { Decides result (In a x) }
{
    if x < WORD_BITS {
        let low = a.0 >> x;
        return low % 2 == 1;
    }
    let high = a.1 >> (x - WORD_BITS);
    high % 2 == 1
}

// Whether there is no member.
pub fn is_empty(a: Set) -> bool
    ensures { Decides result ((x : ℕ) → ¬ (In a x)) }
{
    a.0 | a.1 == 0
}

// Whether two sets have the same members, as `==` says too; the function stays, since it is public.
pub fn is_equal(a: Set, b: Set) -> bool
    ensures { Decides result (SetOf (In a) b) }
{
    if a.0 != b.0 {
        return false;
    }
    a.1 == b.1
}

// The least member, or 128: a number, since what is said of it speaks of the numbers before it. `pop` yields an Option.
pub fn least(a: Set) -> u16
    ensures { LeastOf a result }
{
    if a.0 != 0 {
        return u64::trailing_zeros(a.0) as u16;
    }
    WORD_BITS + u64::trailing_zeros(a.1) as u16
}

// The set without its least member, if it has one.
pub fn drop_least(a: Set) -> Set
    ensures { (p : ℕ) → LeastOf a p → SetOf (λ x. In a x × ¬ (x ≡ p)) result }
{
    if a.0 != 0 {
        return Set(a.0 & (a.0 - 1), a.1);
    }
    if a.1 != 0 {
        return Set(a.0, a.1 & (a.1 - 1));
    }
    a
}

// The greatest member, or 128: a number, as of `least`.
pub fn greatest(a: Set) -> u16
    ensures { GreatestOf a result }
{
    if a.1 != 0 {
        return LAST_NUMBER - u64::leading_zeros(a.1) as u16;
    }
    if a.0 != 0 {
        return LAST_BIT - u64::leading_zeros(a.0) as u16;
    }
    STATE_LIMIT
}

// The numbers below n.
pub fn below(n: u16) -> Set
    requires { n ≤ state_limit }
    ensures { SetOf (λ x. x < n) result }
{
    let mut set = none();
    for x in 0..n {
        set = either(set, only(x));
    }
    set
}

// How many members there are.
pub fn size(a: Set) -> u32
    ensures { result ≡ ones a.0 + ones a.1 }
{
    u64::count_ones(a.0) + u64::count_ones(a.1)
}

// Set k of a list.
pub fn set_at(sets: &[u64], k: usize) -> Set
    requires { 2 * k + 1 < length sets.now }
    ensures { SetOf (Member sets.now k) result }
{
    let at = 2 * k;
    Set(sets[at], sets[at + 1])
}

// Makes set k of a list this one.
pub fn put_set(sets: &mut [u64], k: usize, s: Set)
    requires { 2 * k + 1 < length sets.old }
    ensures { SetPut k s sets.old sets.new }
{
    let at = 2 * k;
    sets[at] = s.0;
    sets[at + 1] = s.1;
}

// Adds x to set k of a list.
pub fn insert(sets: &mut [u64], k: usize, x: u16)
    requires { (2 * k + 1 < length sets.old) × (x < state_limit) }
    ensures { Joined k (λ y. y ≡ x) sets.old sets.new }
{
    let at = 2 * k + (x / WORD_BITS) as usize;
    let bit = 1u64 << (x % WORD_BITS);
    sets[at] |= bit;
}
