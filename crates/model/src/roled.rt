// A good store with the role of each action.
ghost use Rattle.model.specs.Inner.ModelOf.{model_of};
ghost use Rattle.model.specs.Inner.Roles.{RolesOf};

use crate::good_store::GoodStore;
use text::Action;
use text::limits::{LOW, SILENT};

// A good store, and the list of the roles of its actions.
#[derive(Clone, Copy)]
pub struct Roled<'s, 'r> {
    pub store: GoodStore<'s>,
    pub roles: &'r [u16],
    pub ghost roles_of: { RolesOf (model_of store) roles.now },
}

impl Roled<'_, '_> {
    ghost use Rattle.std.specs.Prelude.{◌≡◌, ◌<◌, T};
    ghost use Rattle.text.specs.Decides.{Decides};
    ghost use Rattle.model.specs.System.{view};

    pub fn is_low(self, a: Action) -> bool
        requires { a.0 < (model_of self.store).head.actions }
        ensures { Decides result (T ((view (model_of self.entry.store)).levels.low? a.0)) }
    {
        self.roles[usize::from(a.0)] == LOW
    }

    pub fn is_silent(self, a: Action) -> bool
        requires { a.0 < (model_of self.store).head.actions }
        ensures { Decides result (T ((view (model_of self.entry.store)).levels.silent? a.0)) }
    {
        self.roles[usize::from(a.0)] == SILENT
    }
}
