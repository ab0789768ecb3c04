// A store that is known to be good, and what stands in it.
ghost use Rattle.model.specs.Inner.Stored.{Stored};
ghost use Rattle.model.specs.StoredModel.{model_at};

use crate::store;
use text::{Action, State, Step};

// The places of a good store, with what is known of them.
#[derive(Clone, Copy)]
pub struct GoodStore<'a> {
    pub places: &'a [u16],
    pub ghost stored: { Stored places.now (model_at places.now) },
}

impl<'a> GoodStore<'a> {
    ghost use Rattle.std.specs.Prelude.{◌≡◌, ◌<◌, ◌≤◌, length, get_or, MatchOption};
    ghost use Rattle.model.specs.Inner.ModelOf.{model_of};
    ghost use Rattle.model.specs.System.{source, action, target, level};
    ghost use Rattle.model.specs.Store.{Good};
    ghost use Rattle.text.specs.Limits.{store_length};

    // The store at these places, if it is good.
    pub fn new(places: &'a [u16]) -> Option<Self>
        requires { store_length ≤ length places.now }
        ensures { MatchOption result (¬ (Good places.now)) (λ s. s.places.now ≡ places.now) }
    {
        if crate::good::good(places) {
            Some(GoodStore { places })
        } else {
            None
        }
    }

    pub fn states(self) -> u16
        ensures { result ≡ (model_of self.entry).head.states }
    {
        store::states(self.places)
    }

    pub fn actions(self) -> u16
        ensures { result ≡ (model_of self.entry).head.actions }
    {
        store::actions(self.places)
    }

    pub fn steps(self) -> u16
        ensures { result ≡ length (model_of self.entry).steps }
    {
        store::steps(self.places)
    }

    pub fn start(self) -> State
        ensures { result.0 ≡ (model_of self.entry).head.start.0 }
    {
        store::start(self.places)
    }

    pub fn level(self, a: Action) -> u16
        requires { a.0 < (model_of self).head.actions }
        ensures { result ≡ level (model_of self.entry) a.0 }
    {
        store::level(self.places, a)
    }

    pub fn source(self, j: Step) -> State
        requires { j.0 < length (model_of self).steps }
        ensures { result.0 ≡ source (model_of self.entry) j.0 }
    {
        store::source(self.places, j)
    }

    pub fn action(self, j: Step) -> Action
        requires { j.0 < length (model_of self).steps }
        ensures { result.0 ≡ action (model_of self.entry) j.0 }
    {
        store::action(self.places, j)
    }

    pub fn target(self, j: Step) -> State
        requires { j.0 < length (model_of self).steps }
        ensures { result.0 ≡ target (model_of self.entry) j.0 }
    {
        store::target(self.places, j)
    }

    // How many extra starts there are.
    pub fn extra_count(self) -> u16
        ensures { result ≡ length (model_of self.entry).extra_starts }
    {
        store::extra_count(self.places)
    }

    pub fn extra_start(self, i: u16) -> State
        requires { i < length (model_of self).extra_starts }
        ensures { result.0 ≡ get_or (model_of self.entry).extra_starts i 0 }
    {
        store::extra_start(self.places, i)
    }
}
