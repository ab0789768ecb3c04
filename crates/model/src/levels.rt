// The levels of the actions that a store holds.
ghost use Rattle.std.specs.Prelude.{◌≤◌, length, T};
ghost use Rattle.text.specs.Decides.{Decides};
ghost use Rattle.text.specs.Limits.{action_limit, store_length};
ghost use Rattle.text.specs.Model.{some_high?};
ghost use Rattle.model.specs.StoredModel.{action_at, listed};

use crate::store::level;
use text::Action;
use text::limits::HIGH;

// Whether one of the first n actions is high.
pub fn some_high(store: &[u16], n: u16) -> bool
    requires { (store_length ≤ length store.now) × (n ≤ action_limit) }
    ensures { Decides result (T (some_high? (listed n (action_at store.now)))) }
{
    (0..n).any(|i| level(store, Action(i)) == HIGH)
}
