// A good store with where the steps of each state begin.
ghost use Rattle.std.specs.Prelude.{◌≤◌, length};
ghost use Rattle.text.specs.Limits.{index_length};
ghost use Rattle.model.specs.Inner.Index.{Index};
ghost use Rattle.model.specs.Inner.ModelOf.{model_of};

use crate::good_store::GoodStore;
use std::ops::Range;
use text::State;

// A good store, and the list of where the steps of each state begin.
#[derive(Clone, Copy)]
pub struct Indexed<'s, 'b> {
    pub store: GoodStore<'s>,
    pub begins: &'b [u16],
    pub ghost long: { index_length ≤ length begins.now },
    pub ghost index: { Index (model_of store) (model_of store).head.states begins.now },
}

impl Indexed<'_, '_> {
    ghost use Rattle.std.specs.Prelude.{◌≡◌, ◌<◌, ◌+◌, get_or};

    // The numbers of the steps of p.
    pub fn steps_of(self, p: State) -> Range<u16>
        requires { p.0 < (model_of self.store).head.states }
        ensures from { result.start ≡ get_or self.entry.begins.now p.0 0 }
        ensures to { result.end ≡ get_or self.entry.begins.now (p.0 + 1) 0 }
    {
        let of = usize::from(p.0);
        self.begins[of]..self.begins[of + 1]
    }
}
