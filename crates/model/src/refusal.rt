// The refusals that an operation on a store tests first: a lent list below its least length, then a store that is not
// good.
ghost use Rattle.std.specs.Prelude.{◌≡◌, ◌≤◌, ◌<◌, length, MatchResult};
ghost use Rattle.text.specs.Limits.{store_length};
ghost use Rattle.model.specs.Store.{Good};
ghost use Rattle.model.specs.Inner.Stored.{Stored};
ghost use Rattle.model.specs.StoredModel.{model_at};
ghost use Rattle.model.specs.declared.refusal.Refusal.TheVariants.{ShortList, NotGood};

use crate::good::good;

// A list is too short, told by its place among those lent, from 1; or the store is not good.
#[derive(Clone, Copy, PartialEq, Eq)]
pub enum Refusal {
    ShortList(usize),
    NotGood,
}

// Whether the list at a place has its least length.
pub fn long_enough(place: usize, count: usize, least: usize) -> Result<(), Refusal>
    ensures { MatchResult result (λ _. least ≤ count) (λ e. (count < least) × (e ≡ ShortList place)) }
{
    if count < least {
        return Err(Refusal::ShortList(place));
    }
    Ok(())
}

// Whether the store is good, and so holds a model.
pub fn check_good(store: &[u16]) -> Result<(), Refusal>
    requires { store_length ≤ length store.now }
    ensures { MatchResult result (λ _. Good store.now × Stored store.now (model_at store.now))
        (λ e. (¬ (Good store.now)) × (e ≡ NotGood)) }
{
    if good(store) {
        Ok(())
    } else {
        Err(Refusal::NotGood)
    }
}
