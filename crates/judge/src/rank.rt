// The operation Rank.
ghost use Rattle.judge.specs.RankPromise.{rank_outcome, RankPromise};

use model::good_store::GoodStore;
use model::refusal::{Refusal, check_good, long_enough};
use model::roled::Roled;
use text::limits::{ROLES_LENGTH, STORE_LENGTH, TABLE_LENGTH};

// Fills the table with the ranks, and answers the last round that separated two states.
pub fn rank(store: &[u16], table: &mut [u8]) -> Result<u8, Refusal>
    ensures { RankPromise store.now table.old (rank_outcome result) table.new }
{
    long_enough(1, store.len(), STORE_LENGTH)?;
    long_enough(2, table.len(), TABLE_LENGTH)?;
    check_good(store)?;
    let mut roles = [0u16; ROLES_LENGTH];
    let store = GoodStore { places: store };
    model::index::roles(store, &mut roles);
    let roled = Roled {
        store,
        roles: &roles,
    };
    Ok(moves::table::fill_table(roled, table))
}
