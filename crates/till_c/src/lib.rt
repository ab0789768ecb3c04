// The operations for callers in C and Rust. Each has the promise of the operation that it calls, of what its answer
// tells; the rest of the answer is 0.

#![tactic(auto)]

pub mod answer;

ghost use Rattle.read_write.specs.ReadPromise.{ReadPromise};
ghost use Rattle.read_write.specs.WritePromise.{WritePromise};
ghost use Rattle.judge.specs.ReachPromise.{ReachPromise};
ghost use Rattle.judge.specs.RunPromise.{RunPromise};
ghost use Rattle.judge.specs.RankPromise.{RankPromise};
ghost use Rattle.judge.specs.JudgePromise.{JudgePromise};
ghost use Rattle.judge.specs.WordPromise.{WordPromise};
ghost use Rattle.judge.specs.BookPromise.{BookPromise};
ghost use Rattle.judge.specs.CheckPromise.{CheckPromise};
ghost use Rattle.lines.specs.declared.lines.Form.TheVariants.{Page};
ghost use Rattle.page.specs.PagePromise.{PagePromise, RollPromise};
ghost use Rattle.page.specs.PrintPromise.{PrintPromise};
ghost use Rattle.page.specs.Claim.{PrintClaim};
ghost use Rattle.till_c.specs.Answer.{answer_outcome, Plain};
ghost use Rattle.till_c.specs.Told.{ToldPromise, ToldClaim, ToldPlain};

use answer::{TillAnswer, TillTold};
use text::State;

#[unsafe(no_mangle)]
pub extern "C" fn till_read(text: &[u8], store: &mut [u16]) -> TillAnswer
    ensures read_promise { ReadPromise text.now store.old (answer_outcome result) store.new }
    ensures plain { Plain result }
{
    answer::read_answer(read_write::read::read(text, store))
}

#[unsafe(no_mangle)]
pub extern "C" fn till_write(store: &[u16], out: &mut [u8]) -> TillAnswer
    ensures write_promise { WritePromise store.now out.old (answer_outcome result) out.new }
    ensures plain { Plain result }
{
    answer::write_answer(read_write::write::write(store, out))
}

#[unsafe(no_mangle)]
pub extern "C" fn till_reach(store: &[u16], distances: &mut [u16]) -> TillAnswer
    ensures reach_promise { ReachPromise store.now distances.old (answer_outcome result)
        distances.new }
    ensures plain { Plain result }
{
    answer::reach_answer(judge::reach::reach(store, distances))
}

#[unsafe(no_mangle)]
pub extern "C" fn till_rank(store: &[u16], table: &mut [u8]) -> TillAnswer
    ensures rank_promise { RankPromise store.now table.old (answer_outcome result) table.new }
    ensures plain { Plain result }
{
    answer::rank_answer(judge::rank::rank(store, table))
}

#[unsafe(no_mangle)]
pub extern "C" fn till_judge(store: &[u16], distances: &mut [u16], table: &mut [u8]) -> TillAnswer
    ensures judge_promise { JudgePromise store.now distances.old table.old (answer_outcome result)
        distances.new table.new }
    ensures plain { Plain result }
{
    answer::judge_answer(judge::judge::judge(store, distances, table))
}

#[unsafe(no_mangle)]
pub extern "C" fn till_run(
    store: &[u16],
    distances: &mut [u16],
    run: &mut [u16],
    state: u16,
) -> TillAnswer
    ensures run_promise { RunPromise store.now distances.old run.old state (answer_outcome result)
        distances.new run.new }
    ensures plain { Plain result }
{
    answer::run_answer(judge::run::run(store, distances, run, State(state)))
}

#[unsafe(no_mangle)]
pub extern "C" fn till_word(
    store: &[u16],
    distances: &mut [u16],
    table: &mut [u8],
    word: &mut [u16],
) -> TillAnswer
    ensures word_promise { WordPromise store.now distances.old table.old word.old
        (answer_outcome result) distances.new table.new word.new }
    ensures plain { Plain result }
{
    answer::word_answer(judge::word::word(store, distances, table, word))
}

#[unsafe(no_mangle)]
pub extern "C" fn till_book(store: &[u16], table: &mut [u8], book: &mut [u8]) -> TillAnswer
    ensures book_promise { BookPromise store.now table.old book.old (answer_outcome result)
        table.new book.new }
    ensures plain { Plain result }
{
    answer::book_answer(judge::book::book(store, table, book))
}

#[unsafe(no_mangle)]
pub extern "C" fn till_check(store: &[u16], book: &[u8]) -> TillAnswer
    ensures check_promise { CheckPromise store.now book.now (answer_outcome result) }
    ensures plain { Plain result }
{
    answer::check_answer(judge::check::check(store, book))
}

#[unsafe(no_mangle)]
pub extern "C" fn till_page(
    store: &[u16],
    distances: &mut [u16],
    table: &mut [u8],
    run: &mut [u16],
    word: &mut [u16],
    out: &mut [u8],
) -> TillAnswer
    ensures page_promise { PagePromise store.now distances.old table.old run.old
        word.old out.old (answer_outcome result) distances.new table.new
        run.new word.new out.new }
    ensures plain { Plain result }
{
    answer::page_answer(page::page::page(store, distances, table, run, word, out))
}

#[unsafe(no_mangle)]
pub extern "C" fn till_roll(
    store: &[u16],
    distances: &mut [u16],
    table: &mut [u8],
    run: &mut [u16],
    word: &mut [u16],
    out: &mut [u8],
) -> TillAnswer
    ensures roll_promise { RollPromise store.now distances.old table.old run.old
        word.old out.old (answer_outcome result) distances.new table.new
        run.new word.new out.new }
    ensures plain { Plain result }
{
    answer::page_answer(page::page::roll(store, distances, table, run, word, out))
}

#[unsafe(no_mangle)]
pub extern "C" fn till_print(
    text: &[u8],
    store: &mut [u16],
    distances: &mut [u16],
    table: &mut [u8],
    run: &mut [u16],
    word: &mut [u16],
    out: &mut [u8],
) -> TillAnswer
    ensures print_promise { PrintPromise Page text.now store.old distances.old
        table.old run.old word.old out.old (answer_outcome result)
        store.new distances.new table.new run.new word.new
        out.new }
    ensures print_claim { PrintClaim Page text.now (answer_outcome result) word.new out.new }
    ensures plain { Plain result }
{
    answer::print_answer(page::print::print(text, store, distances, table, run, word, out))
}

#[unsafe(no_mangle)]
pub extern "C" fn till_tell(
    text: &[u8],
    store: &mut [u16],
    distances: &mut [u16],
    table: &mut [u8],
    word: &mut [u16],
) -> TillTold
    ensures told_promise { ToldPromise text.now store.old distances.old table.old
        word.old result store.new distances.new table.new word.new }
    ensures told_claim { ToldClaim text.now result word.new }
    ensures told_plain { ToldPlain result }
{
    answer::tell_answer(tell::tell::tell(text, store, distances, table, word))
}
