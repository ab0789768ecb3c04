// The low and the silent steps, as lists by label: those with each action, and behind them the silent ones.
ghost use Rattle.std.specs.Prelude.{◌≡◌, ◌+◌, ◌≤◌, ◌<◌, ℕ, length, set, MatchOption};
ghost use Rattle.text.specs.Decides.{Decides};
ghost use Rattle.text.specs.Limits.{action_limit, step_limit};
ghost use Rattle.model.specs.Inner.ModelOf.{model_of};
ghost use Rattle.model.specs.System.{source, target, view};
ghost use Rattle.silent.specs.Labelled.{labels_length};
ghost use Rattle.moves.specs.Labels.{SomeSilent, LabelsOf};
ghost use Rattle.moves.specs.Inner.Listing.{Appended};
ghost use Rattle.moves.specs.Inner.Labelling.{ActionLabel, OnlyLabel, Labelled, Linked, PlacedTo};

use model::good_store::GoodStore;
use model::roled::Roled;
use silent::LABELS_LENGTH;
use text::limits::{ACTION_LIMIT, MOVES_LENGTH, ROLES_LENGTH};
use text::{Action, Step};

// Whether some action is silent.
pub fn some_silent(store: Roled) -> bool
    ensures { Decides result (SomeSilent (model_of store.entry.store)) }
{
    let n = store.store.actions();
    (0..n).any(|a| store.is_silent(Action(a)))
}

// Whether some action of a good store is silent: the roles are made here.
pub fn has_silent(store: GoodStore) -> bool
    ensures { Decides result (SomeSilent (model_of store.entry)) }
{
    let mut roles = [0u16; ROLES_LENGTH];
    model::index::roles(store, &mut roles);
    some_silent(Roled {
        store,
        roles: &roles,
    })
}

// The label of a step with the action a: the action if that is low, and the one behind all actions if it is silent. A
// step that is neither has none.
fn label_of(store: Roled, a: Action) -> Option<u16>
    requires { a.0 < (model_of store.store).head.actions }
    ensures { MatchOption result ((label : ℕ) → ¬ (ActionLabel (model_of store.entry.store) label a.0))
        (λ label. (label ≤ action_limit) × OnlyLabel (λ l. ActionLabel (model_of store.entry.store) l a.0) label) }
{
    if store.is_low(a) {
        Some(a.0)
    } else if store.is_silent(a) {
        Some(ACTION_LIMIT)
    } else {
        None
    }
}

// Links step j before the later ones with its label, if it has one. The links are numbers in lists of fixed length,
// since there is no heap.
fn link_step(store: Roled, j: Step, heads: &mut [u16], nexts: &mut [u16])
    requires labels_length_in_bounds { (labels_length ≤ length heads.old) × (step_limit ≤ length nexts.old) }
    requires j_in_bounds { (j.0 < length (model_of store.store).steps)
        × Linked (model_of store.store) (j.0 + 1) heads.old nexts.old }
    ensures { Linked (model_of store.entry.store) j.0 heads.new nexts.new }
{
    let a = store.store.action(j);
    if let Some(label) = label_of(store, a) {
        let of = usize::from(label);
        let next = heads[of];
        nexts[usize::from(j.0)] = next;
        heads[of] = j.0;
    }
}

// Links the steps by label, from the last to the first.
fn link_steps(store: Roled, heads: &mut [u16], nexts: &mut [u16])
    requires labels_length_in_bounds { (labels_length ≤ length heads.old) × (step_limit ≤ length nexts.old) }
    requires linked { Linked (model_of store.store) (length (model_of store.store).steps) heads.old nexts.old }
    ensures { Linked (model_of store.entry.store) 0 heads.new nexts.new }
{
    let n = store.store.steps();
    for j in (0..n).rev() {
        link_step(store, Step(j), heads, nexts);
    }
}

// Puts the source and the target of step j at place `at` of the lists.
fn put_ends(store: GoodStore, j: Step, at: u16, sources: &mut [u16], targets: &mut [u16])
    requires j_in_bounds { (j.0 < length (model_of store).steps) × (at < length sources.old)
        × (at < length targets.old) }
    ensures sources_after { sources.new
        ≡ set sources.old at (source (model_of store.entry) j.0) }
    ensures targets_after { targets.new
        ≡ set targets.old at (target (model_of store.entry) j.0) }
{
    let to = usize::from(at);
    sources[to] = store.source(j).0;
    targets[to] = store.target(j).0;
}

// Appends the steps with this label from place `begin` on, and yields the next free place.
fn list_label(
    store: GoodStore,
    heads: &[u16],
    nexts: &[u16],
    label: u16,
    begin: u16,
    sources: &mut [u16],
    targets: &mut [u16],
) -> u16
    requires labels_length_in_bounds { (labels_length ≤ length heads.now) × (step_limit ≤ length nexts.now)
        × Linked (model_of store) 0 heads.now nexts.now }
    requires label_le_action_limit { (label ≤ action_limit) × PlacedTo (model_of store) label 0 begin }
    requires step_limit_in_bounds { (step_limit ≤ length sources.old) × (step_limit ≤ length targets.old) }
    ensures appended { Appended (Labelled (model_of store.entry) label) begin result sources.old
        targets.old sources.new targets.new }
    ensures placed_to { PlacedTo (model_of store.entry) (label + 1) 0 result }
{
    let n = store.steps();
    let mut j = heads[usize::from(label)];
    let mut at = begin;
    // A loop: it follows links, and not the numbers of a range.
    while j < n {
        put_ends(store, Step(j), at, sources, targets);
        at += 1;
        j = nexts[usize::from(j)];
    }
    at
}

// Lists the linked steps, label after label.
fn list_linked(
    store: GoodStore,
    heads: &[u16],
    nexts: &[u16],
    from: &mut [u16],
    sources: &mut [u16],
    targets: &mut [u16],
)
    requires labels_length_in_bounds { (labels_length ≤ length heads.now) × (step_limit ≤ length nexts.now)
        × Linked (model_of store) 0 heads.now nexts.now }
    requires labels_length_in_bounds_2 { (labels_length ≤ length from.old) × (step_limit ≤ length sources.old)
        × (step_limit ≤ length targets.old) }
    ensures { LabelsOf (view (model_of store.entry)) from.new sources.new
        targets.new }
{
    let mut at = 0;
    from[0] = 0;
    for label in 0..ACTION_LIMIT + 1 {
        at = list_label(store, heads, nexts, label, at, sources, targets);
        from[usize::from(label) + 1] = at;
    }
}

// Lists the low and the silent steps by label. They are linked by label first, so that the time is that of the steps
// and not of the steps for each label; the links are gone from the stack when the lists are made.
pub fn list_labels(store: Roled, from: &mut [u16], sources: &mut [u16], targets: &mut [u16])
    requires { (labels_length ≤ length from.old) × (step_limit ≤ length sources.old)
        × (step_limit ≤ length targets.old) }
    ensures { LabelsOf (view (model_of store.entry.store)) from.new sources.new
        targets.new }
{
    let n = store.store.steps();
    let mut heads = [n; LABELS_LENGTH];
    let mut nexts = [0u16; MOVES_LENGTH];
    link_steps(store, &mut heads, &mut nexts);
    list_linked(store.store, &heads, &nexts, from, sources, targets);
}

// Lists the low and the silent steps of a good store by label: the roles are made here.
pub fn list_store_labels(
    store: GoodStore,
    from: &mut [u16],
    sources: &mut [u16],
    targets: &mut [u16],
)
    requires { (labels_length ≤ length from.old) × (step_limit ≤ length sources.old)
        × (step_limit ≤ length targets.old) }
    ensures { LabelsOf (view (model_of store.entry)) from.new sources.new
        targets.new }
{
    let mut roles = [0u16; ROLES_LENGTH];
    model::index::roles(store, &mut roles);
    list_labels(
        Roled {
            store,
            roles: &roles,
        },
        from,
        sources,
        targets,
    );
}
