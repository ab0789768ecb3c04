// The names of the actions that a store holds, while it is made.
ghost use Rattle.std.specs.Prelude.{List, ◌≡◌, ◌≤◌, ◌<◌, length};
ghost use Rattle.text.specs.Limits.{actions_begin, action_limit, name_limit, store_length, action_place};
ghost use Rattle.text.specs.Model.{ActionLine};
ghost use Rattle.text.specs.Split.{same?};
ghost use Rattle.text.specs.Lines.{used?};
ghost use Rattle.model.specs.Inner.StoredActions.{ActionStored, ActionsStored};

use crate::store::{name_length, name_place};
use text::Action;

// Whether an action in the store has a name.
fn named(store: &[u16], a: Action, name: &[u8]) -> bool
    requires { (store_length ≤ length store.now) × (a.0 < action_limit) × (length name.now ≤ name_limit) }
    ensures { (line : ActionLine) → ActionStored store.now (action_place a.0) line
        → result ≡ same? line.name name.now }
{
    let at = name_place(a);
    usize::from(name_length(store, a)) == name.len()
        && store[at..at + name.len()]
            .iter()
            .zip(name)
            .all(|(&x, &b)| x == u16::from(b))
}

// Whether one of the first actions in the store has a name.
pub fn used(store: &[u16], count: u16, name: &[u8]) -> bool
    requires { (store_length ≤ length store.now) × (count ≤ action_limit) × (length name.now ≤ name_limit) }
    ensures { (before : List ActionLine) → ActionsStored store.now actions_begin before
        → length before ≡ count → result ≡ used? name.now before }
{
    (0..count).any(|i| named(store, Action(i), name))
}
