// Moves as lists: the steps of each state. Classes as a list: entry p is the number of the class of p.
ghost use Rattle.std.specs.Prelude.{◌≡◌, ◌+◌, ◌<◌, get_or};
ghost use Rattle.text.specs.Limits.{state_limit};

use crate::Class;
use text::State;
use text::limits::{INDEX_LENGTH, ROW};

// A number of a list as a place, as a cast is too; the function stays, since it is public.
pub fn wide(x: u16) -> usize
    ensures { result ≡ x }
{
    x as usize
}

// Where the steps of p begin in their lists.
pub fn moves_from(first: &[u16; INDEX_LENGTH], p: State) -> usize
    requires { p.0 < state_limit }
    ensures { result ≡ get_or first.now p.0 0 }
{
    let at = p.0 as usize;
    wide(first[at])
}

// Where they end.
pub fn moves_to(first: &[u16; INDEX_LENGTH], p: State) -> usize
    requires { p.0 < state_limit }
    ensures { result ≡ get_or first.now (p.0 + 1) 0 }
{
    let at = p.0 as usize;
    wide(first[at + 1])
}

// The class of p.
pub fn class_at(class: &[u16; ROW], p: State) -> Class
    requires { p.0 < state_limit }
    ensures { result.0 ≡ get_or class.now p.0 0 }
{
    let at = p.0 as usize;
    Class(class[at])
}
