// The operation Word.
ghost use Rattle.judge.specs.WordPromise.{word_outcome, WordPromise};

use letters::word::Shown;
use model::refusal::{Refusal, check_good, long_enough};
use text::limits::{
    DISTANCES_LENGTH, INDEX_LENGTH, ROLES_LENGTH, STORE_LENGTH, TABLE_LENGTH, WORD_LENGTH,
};

// Fills the distances and the table, and the first shortest word that shows the leak; answers its length and the end
// that allows it.
pub fn word(
    store: &[u16],
    distances: &mut [u16],
    table: &mut [u8],
    word: &mut [u16],
) -> Result<Shown, Refusal>
    ensures { WordPromise store.now distances.old table.old word.old
        (word_outcome result) distances.new table.new word.new }
{
    long_enough(1, store.len(), STORE_LENGTH)?;
    long_enough(2, distances.len(), DISTANCES_LENGTH)?;
    long_enough(3, table.len(), TABLE_LENGTH)?;
    long_enough(4, word.len(), WORD_LENGTH)?;
    check_good(store)?;
    let mut begins = [0u16; INDEX_LENGTH];
    let mut roles = [0u16; ROLES_LENGTH];
    let verdict = crate::judge::judge_good(store, &mut begins, &mut roles, distances, table);
    Ok(letters::word::show(store, &begins, &roles, distances, table, verdict, word))
}
