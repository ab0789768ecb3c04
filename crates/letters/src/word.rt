// The first shortest word that shows the leak of a deterministic model.
ghost use Rattle.std.specs.Prelude.{[], ◌∷◌, ◌≤◌, length};
ghost use Rattle.text.specs.Limits.{word_length};
ghost use Rattle.model.specs.StoredModel.{model_at};
ghost use Rattle.model.specs.System.{DeterministicModel, NoSilentStep};
ghost use Rattle.letters.specs.WordDone.{shown_outcome, WordDone};
ghost use Rattle.letters.specs.Inner.Letters.{Showable, StepLists, WordLists, SeparatedPair};
ghost use Rattle.letters.specs.Inner.WordHead.{WordFrom, WordWritten};

use text::{Action, State, Step};
use verdicts::judging::Verdict;

// An end of a step.
#[derive(Clone, Copy)]
pub enum End {
    Source,
    Target,
}

// What is shown of a good store: the word's length, which is the depth, and the end that allows it; or why there is
// none.
#[derive(Clone, Copy)]
pub enum Shown {
    Word(usize, End),
    NotDeterministic(Step),
    Silent(Step),
    NoLeak,
}

// The last letter of a word, and the end that has it.
#[derive(Clone, Copy)]
struct Last {
    action: Action,
    end: End,
}

// The lowest low action that just one of p and q has, which round 1 separates.
fn last_letter(store: &[u16], begins: &[u16], roles: &[u16], p: State, q: State) -> Last
    requires step_lists { StepLists (model_at store.now) store.now begins.now roles.now }
    requires separated_pair { SeparatedPair (model_at store.now) p.0 q.0 1 }
    ensures { WordFrom (model_at store.now) p.0 q.0 (result.action.0 ∷ []) result.end }
{
    let here = crate::letters::lowest_alone(store, begins, roles, p, q);
    let there = crate::letters::lowest_alone(store, begins, roles, q, p);
    match (here, there) {
        (Some(a), Some(b)) => {
            if b < a {
                Last {
                    action: b,
                    end: End::Target,
                }
            } else {
                Last {
                    action: a,
                    end: End::Source,
                }
            }
        }
        (Some(action), None) => Last {
            action,
            end: End::Source,
        },
        (None, Some(action)) => Last {
            action,
            end: End::Target,
        },
        // Round 1 separates p and q, so one of them has such an action.
        (None, None) => unreachable!(),
    }
}

// Writes the first shortest word of p and q, which round `depth` separates, letter by letter; answers the end that
// allows it.
fn fill_word(
    store: &[u16],
    begins: &[u16],
    roles: &[u16],
    table: &[u8],
    word: &mut [u16],
    p: State,
    q: State,
    depth: u8,
) -> End
    requires word_lists { WordLists (model_at store.now) store.now begins.now roles.now table.now }
    requires separated_pair { SeparatedPair (model_at store.now) p.0 q.0 depth × (word_length ≤ length word.old) }
    ensures { WordWritten (model_at store.now) p.0 q.0 depth result
        word.old word.new }
{
    let mut from = p;
    let mut to = q;
    let mut left = depth;
    let mut at = 0;
    while 1 < left {
        left -= 1;
        let letter = crate::letters::first_letter(store, begins, roles, table, from, to, left);
        let a = model::store::action(store, letter.from);
        word[at] = a.0;
        from = model::store::target(store, letter.from);
        to = model::store::target(store, letter.to);
        at += 1;
    }
    let last = last_letter(store, begins, roles, from, to);
    word[at] = last.action.0;
    last.end
}

// The word of a judged model that is deterministic and has no reachable silent step.
fn show_word(
    store: &[u16],
    begins: &[u16],
    roles: &[u16],
    distances: &[u16],
    table: &[u8],
    verdict: Verdict,
    word: &mut [u16],
) -> Shown
    requires showable { Showable (model_at store.now) verdict store.now begins.now roles.now distances.now table.now
        word.old }
    requires deterministic_model { DeterministicModel (model_at store.now) × NoSilentStep (model_at store.now) }
    ensures { WordDone (model_at store.now) (shown_outcome result) word.old word.new }
{
    match verdict {
        Verdict::Passed(_) => Shown::NoLeak,
        Verdict::Refused(j, depth) => {
            let p = model::store::source(store, j);
            let q = model::store::target(store, j);
            let end = fill_word(store, begins, roles, table, word, p, q, depth);
            let length = depth as usize;
            Shown::Word(length, end)
        }
    }
}

// The word of a judged model; the lists are as `judge_good` leaves them.
pub fn show(
    store: &[u16],
    begins: &[u16],
    roles: &[u16],
    distances: &[u16],
    table: &[u8],
    verdict: Verdict,
    word: &mut [u16],
) -> Shown
    requires { Showable (model_at store.now) verdict store.now begins.now roles.now distances.now table.now
        word.old }
    ensures { WordDone (model_at store.now) (shown_outcome result) word.old word.new }
{
    match crate::branch::first_branch(store, distances) {
        Some(j) => Shown::NotDeterministic(j),
        None => match crate::silent_steps::first_silent(store, roles, distances) {
            Some(j) => Shown::Silent(j),
            None => show_word(store, begins, roles, distances, table, verdict, word),
        },
    }
}
