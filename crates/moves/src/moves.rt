// The low steps of each state, as lists; and what the role of an action says of it.
ghost use Rattle.std.specs.Prelude.{◌≡◌, ◌+◌, ◌≤◌, ◌<◌, length, get_or};
ghost use Rattle.text.specs.Decides.{Decides};
ghost use Rattle.text.specs.Limits.{step_limit};
ghost use Rattle.text.specs.Model.{low, silent};
ghost use Rattle.model.specs.Inner.ModelOf.{model_of};
ghost use Rattle.model.specs.Inner.Index.{Index};
ghost use Rattle.text.specs.Limits.{index_length};
ghost use Rattle.by_state.specs.MoveList.{Lists, Rising, Ordered};
ghost use Rattle.moves.specs.Inner.Listing.{Appended, Among, LowAs};
ghost use Rattle.model.specs.System.{view};
ghost use Rattle.lts.specs.Weak.{LowStep};

use model::good_store::GoodStore;
use model::roled::Roled;
use text::limits::{INDEX_LENGTH, LOW, ROLES_LENGTH, SILENT};
use text::{Action, State, Step};

// Whether an action is low, by its role.
pub fn is_low(roles: &[u16], a: Action) -> bool
    requires { a.0 < length roles.now }
    ensures { Decides result (get_or roles.now a.0 0 ≡ low) }
{
    roles[usize::from(a.0)] == LOW
}

// Whether an action is silent, by its role. A test of one line beside the other: one over the role would be no shorter.
pub fn is_silent(roles: &[u16], a: Action) -> bool
    requires { a.0 < length roles.now }
    ensures { Decides result (get_or roles.now a.0 0 ≡ silent) }
{
    roles[usize::from(a.0)] == SILENT
}

// Appends a step to the lists at place `at` if it is low, and yields the next free place.
fn list_step(store: Roled, j: Step, at: u16, actions: &mut [u16], targets: &mut [u16]) -> u16
    requires j_in_bounds { (j.0 < length (model_of store.store).steps) × (at < step_limit) }
    requires step_limit_in_bounds { (step_limit ≤ length actions.old) × (step_limit ≤ length targets.old) }
    ensures appended { Appended (Among (LowAs (model_of store.entry.store)) j.0 (j.0 + 1)) at result
        actions.old targets.old actions.new targets.new }
    ensures upper_bound { result ≤ at + 1 }
{
    let a = store.store.action(j);
    if !store.is_low(a) {
        return at;
    }
    let to = usize::from(at);
    actions[to] = a.0;
    targets[to] = store.store.target(j).0;
    at + 1
}

// Appends the low steps of p to the lists from place `from` on, and yields the next free place.
fn list_state(
    store: Roled,
    begins: &[u16],
    p: State,
    from: u16,
    actions: &mut [u16],
    targets: &mut [u16],
) -> u16
    requires index_length_in_bounds { (index_length ≤ length begins.now)
        × Index (model_of store.store) (model_of store.store).head.states begins.now }
    requires p_bound { (p.0 < (model_of store.store).head.states) × (from ≤ get_or begins.now p.0 0) }
    requires step_limit_in_bounds { (step_limit ≤ length actions.old) × (step_limit ≤ length targets.old) }
    ensures appended { Appended (LowStep (view (model_of store.entry.store)) p.0) from result
        actions.old targets.old actions.new targets.new }
    ensures upper_bound { result ≤ get_or begins.now (p.0 + 1) 0 }
    ensures rising { Rising from result actions.new targets.new }
{
    let of = usize::from(p.0);
    let mut at = from;
    for j in begins[of]..begins[of + 1] {
        at = list_step(store, Step(j), at, actions, targets);
    }
    at
}

// Lists the low steps of all states, those of a state by action and then by target.
fn list_moves(
    store: Roled,
    begins: &[u16],
    first: &mut [u16],
    actions: &mut [u16],
    targets: &mut [u16],
)
    requires index_length_in_bounds { (index_length ≤ length begins.now)
        × Index (model_of store.store) (model_of store.store).head.states begins.now }
    requires index_length_in_bounds_2 { (index_length ≤ length first.old) × (step_limit ≤ length actions.old)
        × (step_limit ≤ length targets.old) }
    ensures lists { Lists (LowStep (view (model_of store.entry.store))) (model_of store.entry.store).head.states
        first.new actions.new targets.new }
    ensures ordered { Ordered (model_of store.entry.store).head.states first.new actions.new
        targets.new }
{
    let n = store.store.states();
    let mut at = 0;
    first[0] = 0;
    for p in 0..n {
        at = list_state(store, begins, State(p), at, actions, targets);
        first[usize::from(p) + 1] = at;
    }
}

// Lists the moves of a good store: index and roles are made here.
pub fn list_store_moves(
    store: GoodStore,
    first: &mut [u16],
    actions: &mut [u16],
    targets: &mut [u16],
)
    requires { (index_length ≤ length first.old) × (step_limit ≤ length actions.old)
        × (step_limit ≤ length targets.old) }
    ensures lists { Lists (LowStep (view (model_of store.entry))) (model_of store.entry).head.states
        first.new actions.new targets.new }
    ensures ordered { Ordered (model_of store.entry).head.states first.new actions.new
        targets.new }
{
    let mut begins = [0u16; INDEX_LENGTH];
    let mut roles = [0u16; ROLES_LENGTH];
    model::index::index(store, &mut begins);
    model::index::roles(store, &mut roles);
    list_moves(
        Roled {
            store,
            roles: &roles,
        },
        &begins,
        first,
        actions,
        targets,
    );
}
