// A partition split by a set of states.
ghost use Rattle.std.specs.Prelude.{◌≡◌, ℕ, ◌+◌, ◌≤◌, ◌<◌, get_or};
ghost use Rattle.text.specs.Limits.{state_limit};
ghost use Rattle.sets.specs.Inner.SetValues.{In};
ghost use Rattle.splitters.specs.Inner.Partition.{TwoParts, Split, Moved, home};

use crate::parts::Parts;
use by_state::Class;
use by_state::lists::class_at;
use sets::set::{Set, both, is_empty, put_set, set_at, size, without};
use text::State;
use text::limits::ROW;

// The set `together` without the member of s, if s has just one.
fn alone(together: Set, s: Set) -> Set
    ensures by_index { (x : ℕ) → In result x → In together x }
    ensures by_index_2 { (x : ℕ) → In together x → ¬ (In result x) → In s x × ((y : ℕ) → In s y → y ≡ x) }
{
    let mut others = s;
    let _ = others.pop();
    if is_empty(others) {
        return without(together, s);
    }
    together
}

// Moves the states of a set to class c.
fn move_states(s: Set, c: Class, class: &mut [u16; ROW])
    ensures { Moved s c.0 class.old class.new }
{
    for p in s {
        class[p as usize] = c.0;
    }
}

impl Parts {
    // The class that class c was a part of when the round began, with `old` classes.
    fn home_of(&self, old: u16, c: Class) -> u16
        requires { c.0 < state_limit }
        ensures { result ≡ home old self.now.origin c.0 }
    {
        if c.0 < old {
            return c.0;
        }
        self.origin[c.0 as usize]
    }

    // Makes the one part of class c a class of its own: the states of `moved` get the next number.
    fn divide(&mut self, c: Class, moved: Set, kept: Set, old: u16)
        requires class_lt { (c.0 < self.old.classes) × (old ≤ self.old.classes) }
        requires two_parts { TwoParts self.old.members c.0 moved kept }
        ensures grown { (self.new.n ≡ self.old.n) × (self.new.classes ≡ self.old.classes + 1) }
        ensures split { Split self.old.n old (In moved) self.old.class self.old.origin
            self.new.class self.new.origin }
    {
        let to = self.classes;
        let from = self.home_of(old, c);
        self.origin[to as usize] = from;
        move_states(moved, Class(to), &mut self.class);
        put_set(&mut self.members, to as usize, moved);
        put_set(&mut self.members, c.0 as usize, kept);
        self.together = alone(alone(self.together, moved), kept);
        self.classes = to + 1;
    }

    // The same, where the part with fewer states moves.
    fn divide_less(&mut self, c: Class, part: Set, rest: Set, old: u16)
        requires class_lt { (c.0 < self.old.classes) × (old ≤ self.old.classes) }
        requires two_parts { TwoParts self.old.members c.0 part rest }
        ensures grown { (self.new.n ≡ self.old.n) × (self.new.classes ≡ self.old.classes + 1) }
        ensures split { Split self.old.n old (In part) self.old.class self.old.origin
            self.new.class self.new.origin }
    {
        if size(rest) < size(part) {
            self.divide(c, rest, part, old);
        } else {
            self.divide(c, part, rest, old);
        }
    }

    // Splits class c by a set.
    fn split_class(&mut self, c: Class, set: Set, old: u16)
        requires { (c.0 < self.old.classes) × (old ≤ self.old.classes) }
        ensures grown { (self.new.n ≡ self.old.n) × (self.old.classes ≤ self.new.classes) }
        ensures split { Split self.old.n old (λ p. (get_or self.old.class p 0 ≡ c.0) × In set p)
            self.old.class self.old.origin self.new.class self.new.origin }
    {
        let whole = set_at(&self.members, c.0 as usize);
        let part = both(whole, set);
        if is_empty(part) {
            return;
        }
        let rest = without(whole, set);
        if is_empty(rest) {
            return;
        }
        self.divide_less(c, part, rest, old);
    }

    // Splits each class by a set.
    pub fn split(&mut self, set: Set, old: u16)
        requires { old ≤ self.old.classes }
        ensures grown { (self.new.n ≡ self.old.n) × (self.old.classes ≤ self.new.classes) }
        ensures split { Split self.old.n old (In set) self.old.class self.old.origin
            self.new.class self.new.origin }
    {
        let mut left = both(set, self.together);
        while let Some(p) = left.pop() {
            let c = class_at(&self.class, State(p));
            left = without(left, set_at(&self.members, c.0 as usize));
            self.split_class(c, set, old);
        }
    }
}
