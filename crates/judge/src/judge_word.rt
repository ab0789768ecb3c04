// Judge and then Word, on a store that is judged once for both.
ghost use Rattle.std.specs.Prelude.{◌≤◌, length};
ghost use Rattle.text.specs.Limits.{store_length};
ghost use Rattle.model.specs.Store.{Good};
ghost use Rattle.judge.specs.JudgePromise.{judge_outcome};
ghost use Rattle.judge.specs.WordPromise.{word_outcome};
ghost use Rattle.judge.specs.JudgeWordPromise.{JudgeWordPromise};

use letters::word::Shown;
use model::refusal::Refusal;
use text::limits::{DISTANCES_LENGTH, INDEX_LENGTH, ROLES_LENGTH, TABLE_LENGTH, WORD_LENGTH};
use verdicts::judging::Verdict;

// What the two answer.
#[derive(Clone, Copy)]
pub struct JudgeWordAnswer {
    pub judge: Result<Verdict, Refusal>,
    pub word: Result<Shown, Refusal>,
}

// Judges a good store, and shows the word. Word's list is looked at once Judge has answered.
pub fn judge_word(
    store: &[u16],
    distances: &mut [u16],
    table: &mut [u8],
    word: &mut [u16],
) -> JudgeWordAnswer
    requires { (store_length ≤ length store.now) × Good store.now }
    ensures { JudgeWordPromise store.now distances.old table.old
        word.old (judge_outcome result.judge) (word_outcome result.word) distances.new
        table.new word.new }
{
    if distances.len() < DISTANCES_LENGTH {
        return JudgeWordAnswer {
            judge: Err(Refusal::ShortList(2)),
            word: Err(Refusal::ShortList(2)),
        };
    }
    if table.len() < TABLE_LENGTH {
        return JudgeWordAnswer {
            judge: Err(Refusal::ShortList(3)),
            word: Err(Refusal::ShortList(3)),
        };
    }
    let mut begins = [0u16; INDEX_LENGTH];
    let mut roles = [0u16; ROLES_LENGTH];
    let v = crate::judge::judge_good(store, &mut begins, &mut roles, distances, table);
    if word.len() < WORD_LENGTH {
        return JudgeWordAnswer {
            judge: Ok(v),
            word: Err(Refusal::ShortList(4)),
        };
    }
    let shown = letters::word::show(store, &begins, &roles, distances, table, v, word);
    JudgeWordAnswer {
        judge: Ok(v),
        word: Ok(shown),
    }
}
