// The letters of a word: low steps of one state that another state answers, or has no answer to.
ghost use Rattle.std.specs.Prelude.{◌≡◌, ◌+◌, ◌≤◌, ◌<◌, length, slice_index};
ghost use Rattle.text.specs.Decides.{Decides};
ghost use Rattle.model.specs.StoredModel.{model_at};
ghost use Rattle.model.specs.System.{source, ReachableIn, DeterministicModel};
ghost use Rattle.text.specs.Limits.{index_length};
ghost use Rattle.model.specs.Inner.Stored.{Stored};
ghost use Rattle.model.specs.Inner.Index.{Index};
ghost use Rattle.letters.specs.Inner.Letters.{FoundFirst, StepOf, Unanswered, Alone, FoundAlone, Answer, FirstLetter};
ghost use Rattle.letters.specs.Inner.Letters.{StepLists, WordLists, SeparatedPair};

use moves::moves::is_low;
use std::ops::Range;
use text::{Action, State, Step};

// A step, and the other state's step with the same action.
#[derive(Clone, Copy)]
pub struct Letter {
    pub from: Step,
    pub to: Step,
}

// The steps of p stand from where they begin up to where those of the next state begin.
fn own_steps(begins: &[u16], p: State) -> Range<u16>
    requires { p.0 + 1 < length begins.now }
    ensures { (result.start ≡ slice_index begins.now p.0) × (result.end ≡ slice_index begins.now (p.0 + 1)) }
{
    let of = usize::from(p.0);
    begins[of]..begins[of + 1]
}

// The step of p with the action a.
fn step_of_action(store: &[u16], begins: &[u16], p: State, a: Action) -> Option<Step>
    requires stored { Stored store.now (model_at store.now) }
    requires index_length_in_bounds { (index_length ≤ length begins.now)
        × Index (model_at store.now) (model_at store.now).head.states begins.now }
    requires p_bound { p.0 < (model_at store.now).head.states }
    ensures { FoundFirst (StepOf (model_at store.now) p.0 a.0) result }
{
    own_steps(begins, p)
        .find(|&j| model::store::action(store, Step(j)) == a)
        .map(Step)
}

// Whether step j is low and q has no step of its action.
fn unanswered(store: &[u16], begins: &[u16], roles: &[u16], q: State, j: Step) -> bool
    requires step_lists { StepLists (model_at store.now) store.now begins.now roles.now }
    requires q_bound { (q.0 < (model_at store.now).head.states) × (j.0 < length (model_at store.now).steps) }
    ensures { Decides result (Unanswered (model_at store.now) q.0 j.0) }
{
    let a = model::store::action(store, j);
    is_low(roles, a) && step_of_action(store, begins, q, a).is_none()
}

// The first low step of p whose action q has no step of.
pub fn alone(store: &[u16], begins: &[u16], roles: &[u16], p: State, q: State) -> Option<Step>
    requires step_lists { StepLists (model_at store.now) store.now begins.now roles.now }
    requires p_bound { (p.0 < (model_at store.now).head.states) × (q.0 < (model_at store.now).head.states) }
    ensures { FoundFirst (Alone (model_at store.now) p.0 q.0) result }
{
    own_steps(begins, p)
        .find(|&j| unanswered(store, begins, roles, q, Step(j)))
        .map(Step)
}

// The lowest action of such a step.
pub fn lowest_alone(
    store: &[u16],
    begins: &[u16],
    roles: &[u16],
    p: State,
    q: State,
) -> Option<Action>
    requires step_lists { StepLists (model_at store.now) store.now begins.now roles.now }
    requires p_bound { (p.0 < (model_at store.now).head.states) × (q.0 < (model_at store.now).head.states) }
    ensures { FoundAlone (model_at store.now) p.0 q.0 result }
{
    alone(store, begins, roles, p, q).map(|j| model::store::action(store, j))
}

// The step of q that answers step j, if j is low and the two targets have the rank k.
fn answer(
    store: &[u16],
    begins: &[u16],
    roles: &[u16],
    table: &[u8],
    q: State,
    k: u8,
    j: Step,
) -> Option<Step>
    requires word_lists { WordLists (model_at store.now) store.now begins.now roles.now table.now }
    requires deterministic_model { DeterministicModel (model_at store.now) × ReachableIn (model_at store.now) q.0 }
    requires k_nonzero { (0 < k) × (j.0 < length (model_at store.now).steps)
        × ReachableIn (model_at store.now) (source (model_at store.now) j.0) }
    ensures { FoundFirst (Answer (model_at store.now) q.0 k j.0) result }
{
    let a = model::store::action(store, j);
    if !is_low(roles, a) {
        return None;
    }
    let i = step_of_action(store, begins, q, a)?;
    let x = model::store::target(store, j);
    let y = model::store::target(store, i);
    (ranking::table::rank_at(table, x, y) == k).then_some(i)
}

// The first low step of p that q answers, the two targets having the rank k, one less than p and q.
pub fn first_letter(
    store: &[u16],
    begins: &[u16],
    roles: &[u16],
    table: &[u8],
    p: State,
    q: State,
    k: u8,
) -> Letter
    requires word_lists { WordLists (model_at store.now) store.now begins.now roles.now table.now }
    requires k_nonzero { (0 < k) × SeparatedPair (model_at store.now) p.0 q.0 (k + 1) }
    ensures { FirstLetter (model_at store.now) p.0 q.0 k result.from.0 result.to.0 }
{
    for j in own_steps(begins, p) {
        if let Some(to) = answer(store, begins, roles, table, q, k, Step(j)) {
            return Letter { from: Step(j), to };
        }
    }
    // Round k + 1 separates p and q, so some step is answered.
    unreachable!()
}
