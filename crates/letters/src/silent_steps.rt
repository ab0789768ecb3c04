// Whether a silent step of a model can be reached.
ghost use Rattle.std.specs.Prelude.{◌≤◌, ◌<◌, length};
ghost use Rattle.text.specs.Decides.{Decides};
ghost use Rattle.text.specs.Limits.{distances_length};
ghost use Rattle.model.specs.StoredModel.{model_at};
ghost use Rattle.model.specs.System.{SilentStep};
ghost use Rattle.model.specs.Inner.Roles.{RolesOf};
ghost use Rattle.model.specs.Inner.Stored.{Stored};
ghost use Rattle.distances.specs.Distances.{DistanceList};
ghost use Rattle.letters.specs.Inner.Letters.{FoundFirst};

use model::good_store::GoodStore;
use model::roled::Roled;
use moves::labels::some_silent;
use moves::moves::is_silent;
use text::Step;

// Whether step j is silent and has a reachable source.
fn is_silent_step(store: &[u16], roles: &[u16], distances: &[u16], j: Step) -> bool
    requires stored { Stored store.now (model_at store.now) }
    requires roles_of { RolesOf (model_at store.now) roles.now }
    requires distances_length_in_bounds { (distances_length ≤ length distances.now) × DistanceList (model_at store.now) distances.now }
    requires j_in_bounds { j.0 < length (model_at store.now).steps }
    ensures { Decides result (SilentStep (model_at store.now) j.0) }
{
    is_silent(roles, model::store::action(store, j))
        && !distances::distances::is_unreachable(distances, model::store::source(store, j))
}

// The first silent step that can be reached. Where no action is silent, no step is looked at.
pub fn first_silent(store: &[u16], roles: &[u16], distances: &[u16]) -> Option<Step>
    requires stored { Stored store.now (model_at store.now) }
    requires roles_of { RolesOf (model_at store.now) roles.now }
    requires distances_length_in_bounds { (distances_length ≤ length distances.now) × DistanceList (model_at store.now) distances.now }
    ensures { FoundFirst (SilentStep (model_at store.now)) result }
{
    let roled = Roled {
        store: GoodStore { places: store },
        roles,
    };
    if !some_silent(roled) {
        return None;
    }
    (0..model::store::steps(store))
        .find(|&j| is_silent_step(store, roles, distances, Step(j)))
        .map(Step)
}
