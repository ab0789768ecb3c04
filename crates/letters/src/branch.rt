// Whether a model is deterministic.
ghost use Rattle.std.specs.Prelude.{◌≤◌, ◌<◌, length};
ghost use Rattle.text.specs.Decides.{Decides};
ghost use Rattle.text.specs.Limits.{distances_length};
ghost use Rattle.model.specs.StoredModel.{model_at};
ghost use Rattle.model.specs.Inner.Stored.{Stored};
ghost use Rattle.distances.specs.Distances.{DistanceList};
ghost use Rattle.letters.specs.Words.{Branches};
ghost use Rattle.letters.specs.Inner.Letters.{FoundFirst};

use text::Step;

// Whether step j, which is not the first, has a reachable source and shares source and action with the step before it.
fn branches(store: &[u16], distances: &[u16], j: Step) -> bool
    requires stored { Stored store.now (model_at store.now) }
    requires distances_length_in_bounds { (distances_length ≤ length distances.now) × DistanceList (model_at store.now) distances.now }
    requires j_nonzero { (0 < j.0) × (j.0 < length (model_at store.now).steps) }
    ensures { Decides result (Branches (model_at store.now) j.0) }
{
    let before = Step(j.0 - 1);
    let q = model::store::source(store, j);
    model::store::source(store, before) == q
        && model::store::action(store, before) == model::store::action(store, j)
        && !distances::distances::is_unreachable(distances, q)
}

// The first step with a reachable source that shares source and action with the step before it: none, just where the
// model is deterministic.
pub fn first_branch(store: &[u16], distances: &[u16]) -> Option<Step>
    requires stored { Stored store.now (model_at store.now) }
    requires distances_length_in_bounds { (distances_length ≤ length distances.now) × DistanceList (model_at store.now) distances.now }
    ensures { FoundFirst (Branches (model_at store.now)) result }
{
    (1..model::store::steps(store))
        .find(|&j| branches(store, distances, Step(j)))
        .map(Step)
}
