// From a text to what is told of it.
ghost use Rattle.tell.specs.Promises.{TellPromise, TellClaim};

use judge::judge_word::{JudgeWordAnswer, judge_word};
use read_write::read::{ReadRefusal, read};

// Reads a text, judges it and asks for the word: what Judge and Word answer, or Read's refusal.
pub fn tell(
    text: &[u8],
    store: &mut [u16],
    distances: &mut [u16],
    table: &mut [u8],
    word: &mut [u16],
) -> Result<JudgeWordAnswer, ReadRefusal>
    ensures tell_promise { TellPromise text.now store.old distances.old table.old
        word.old result store.new distances.new table.new word.new }
    ensures tell_claim { TellClaim text.now result word.new }
{
    read(text, store)?;
    Ok(judge_word(store, distances, table, word))
}
