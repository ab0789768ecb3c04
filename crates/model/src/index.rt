// Where the steps of each state begin, and the role of each action: found once, and handed to all that need them.
ghost use Rattle.std.specs.Prelude.{◌+◌, ◌≤◌, length};
ghost use Rattle.text.specs.Limits.{action_limit};
ghost use Rattle.model.specs.Inner.ModelOf.{model_of};
ghost use Rattle.text.specs.Limits.{index_length};
ghost use Rattle.model.specs.Inner.Index.{Begins, Index};
ghost use Rattle.model.specs.Inner.Roles.{Roles};
ghost use Rattle.model.specs.System.{view};

use crate::good_store::GoodStore;
use text::{Action, State, Step};

// Where the steps of q end, which begin at `from`.
fn end_of(store: GoodStore, q: State, from: u16) -> u16
    requires { Begins (model_of store) q.0 from }
    ensures { Begins (model_of store.entry) (q.0 + 1) result }
{
    let n = store.steps();
    (from..n).find(|&j| store.source(Step(j)) != q).unwrap_or(n)
}

// Writes where the steps of each state begin, and where the last one's end.
pub fn index(store: GoodStore, begins: &mut [u16])
    requires { index_length ≤ length begins.old }
    ensures { Index (model_of store.entry)
        (model_of store.entry).head.states begins.new }
{
    let n = store.states();
    let mut from = 0;
    begins[0] = 0;
    for q in 0..n {
        from = end_of(store, State(q), from);
        begins[usize::from(q) + 1] = from;
    }
}

// Writes the role of each action.
pub fn roles(store: GoodStore, out: &mut [u16])
    requires { action_limit ≤ length out.old }
    ensures { Roles (view (model_of store.entry)).levels
        (model_of store.entry).head.actions out.new }
{
    let n = store.actions();
    for a in 0..n {
        out[usize::from(a)] = store.level(Action(a));
    }
}
