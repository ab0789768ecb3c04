// Whether a store is good: each place is tested, so that no damaged store gets through.
ghost use Rattle.std.specs.Prelude.{◌+◌, ◌≤◌, ◌<◌, T, length, ◌≡◌};
ghost use Rattle.text.specs.Limits.{action_limit, step_limit, extra_limit, store_length};
ghost use Rattle.text.specs.Decides.{Decides};
ghost use Rattle.text.specs.Lines.{name_byte?};
ghost use Rattle.model.specs.Store.{Good};
ghost use Rattle.model.specs.Inner.EachFrom.{EachFrom};
ghost use Rattle.model.specs.Inner.GoodPlaces.{ZeroAt, NameByteAt, SameAt, SameName, OtherName};
ghost use Rattle.model.specs.Inner.GoodPlaces.{GoodAction, GoodStep, GoodPlaces};
ghost use Rattle.model.specs.Inner.GoodPlaces.{start_before, GoodStart, GoodStarts};

use crate::levels::some_high;
use crate::store::{
    action_place, extra_count, extra_place, extra_start, head, level, name_length, name_place,
    step_line, step_place,
};
use text::bytes::{DIGIT, SMALL_LETTER, kind};
use text::limits::{
    ACTIONS_END, EXTRA_END, EXTRA_LIMIT, LAST_LEVEL, NAME_LENGTH_COLUMN, NAME_LIMIT, STEPS_END,
};
use text::line::is_above;
use text::row::{head_fits, start_fits, step_fits};
use text::{Action, Head, State, Step};

// Whether the places from `from` on and below `to` hold 0.
fn zeros(store: &[u16], from: usize, to: usize) -> bool
    requires { (from ≤ to) × (to ≤ length store.now) }
    ensures { Decides result (EachFrom (ZeroAt store.now) from to) }
{
    store[from..to].iter().all(|&x| x == 0)
}

// Whether the n places from p on hold what the n places from q on hold.
fn same(store: &[u16], p: usize, q: usize, n: usize) -> bool
    requires { (p + n ≤ length store.now) × (q + n ≤ length store.now) }
    ensures { Decides result (EachFrom (SameAt store.now p q) 0 n) }
{
    (0..n).all(|k| store[p + k] == store[q + k])
}

// Whether a number is a digit or a small letter. A number of 256 or more is no byte.
fn is_name_byte(x: u16) -> bool
    ensures { Decides result (T (name_byte? x)) }
{
    // An early return: only behind it is the number a byte.
    if 255 < x {
        return false;
    }
    let k = kind(x as u8);
    k == DIGIT || k == SMALL_LETTER
}

// Whether the places from `from` on and below `to` hold digits and small letters.
fn name_bytes(store: &[u16], from: usize, to: usize) -> bool
    requires { (from ≤ to) × (to ≤ length store.now) }
    ensures { Decides result (EachFrom (NameByteAt store.now) from to) }
{
    store[from..to].iter().all(|&x| is_name_byte(x))
}

// Whether two actions have one name: the same length, and the same in its twelve places.
fn same_name(store: &[u16], a: Action, b: Action) -> bool
    requires { (store_length ≤ length store.now) × (a.0 < action_limit) × (b.0 < action_limit) }
    ensures { Decides result (SameName store.now a.0 b.0) }
{
    same(
        store,
        action_place(a) + NAME_LENGTH_COLUMN,
        action_place(b) + NAME_LENGTH_COLUMN,
        NAME_LIMIT as usize + 1,
    )
}

// Whether no action before `a` has its name.
fn used_once(store: &[u16], a: Action) -> bool
    requires { (store_length ≤ length store.now) × (a.0 < action_limit) }
    ensures { Decides result (EachFrom (OtherName store.now a.0) 0 a.0) }
{
    (0..a.0).all(|h| !same_name(store, Action(h), a))
}

// Whether an action's places are good.
fn action_good(store: &[u16], a: Action) -> bool
    requires { (store_length ≤ length store.now) × (a.0 < action_limit) }
    ensures { Decides result (GoodAction store.now a.0) }
{
    let n = name_length(store, a);
    let from = name_place(a);
    let to = from + usize::from(n);
    level(store, a) <= LAST_LEVEL
        && 1 <= n
        && n <= NAME_LIMIT
        && name_bytes(store, from, to)
        && zeros(store, to, from + usize::from(NAME_LIMIT))
        && used_once(store, a)
}

// Whether the places of the first n actions are good.
fn actions_good(store: &[u16], n: u16) -> bool
    requires { (store_length ≤ length store.now) × (n ≤ action_limit) }
    ensures { Decides result (EachFrom (GoodAction store.now) 0 n) }
{
    (0..n).all(|i| action_good(store, Action(i)))
}

// Whether a step's places are good.
fn step_good(store: &[u16], h: Head, j: Step) -> bool
    requires { (store_length ≤ length store.now) × (j.0 < step_limit) }
    ensures { Decides result (GoodStep h store.now j.0) }
{
    let s = step_line(store, j);
    step_fits(h, s) && (j.0 == 0 || is_above(step_line(store, Step(j.0 - 1)), s))
}

// Whether the places of the first h.steps steps are good.
fn steps_good(store: &[u16], h: Head) -> bool
    requires { (store_length ≤ length store.now) × (h.steps ≤ step_limit) }
    ensures { Decides result (EachFrom (GoodStep h store.now) 0 h.steps) }
{
    (0..h.steps).all(|j| step_good(store, h, Step(j)))
}

// The start that extra start i must be above.
fn start_before(store: &[u16], h: Head, i: u16) -> State
    requires { (store_length ≤ length store.now) × (i < extra_limit) }
    ensures { result.0 ≡ start_before h store.now i }
{
    if i == 0 {
        h.start
    } else {
        extra_start(store, i - 1)
    }
}

// Whether the place of extra start i is good.
fn start_good(store: &[u16], h: Head, i: u16) -> bool
    requires { (store_length ≤ length store.now) × (i < extra_limit) }
    ensures { Decides result (GoodStart h store.now i) }
{
    let p = extra_start(store, i);
    start_fits(h, p) && start_before(store, h, i) < p
}

// Whether the places of the first n extra starts are good.
fn starts_good(store: &[u16], h: Head, n: u16) -> bool
    requires { (store_length ≤ length store.now) × (n ≤ extra_limit) }
    ensures { Decides result (EachFrom (GoodStart h store.now) 0 n) }
{
    (0..n).all(|i| start_good(store, h, i))
}

// Whether the section of the extra starts is good.
fn extra_good(store: &[u16], h: Head) -> bool
    requires { store_length ≤ length store.now }
    ensures { Decides result (GoodStarts h store.now) }
{
    let n = extra_count(store);
    n <= EXTRA_LIMIT && starts_good(store, h, n) && zeros(store, extra_place(n), EXTRA_END)
}

// Whether all places of a store are good.
fn places_good(store: &[u16]) -> bool
    requires { store_length ≤ length store.now }
    ensures { Decides result (GoodPlaces store.now) }
{
    let h = head(store);
    // An early return: the head that fits bounds what the tests behind it read.
    if !head_fits(h) {
        return false;
    }
    actions_good(store, h.actions)
        && some_high(store, h.actions)
        && steps_good(store, h)
        && zeros(store, action_place(Action(h.actions)), ACTIONS_END)
        && zeros(store, step_place(Step(h.steps)), STEPS_END)
        && extra_good(store, h)
}

// Whether a store is good: some text reads to it.
pub fn good(store: &[u16]) -> bool
    requires { store_length ≤ length store.now }
    ensures { Decides result (Good store.now) }
{
    places_good(store)
}
