// Each operation's answer as numbers, for callers in C and Rust.
ghost use Rattle.std.specs.Prelude.{[], ◌∷◌, ◌<◌};
ghost use Rattle.text.specs.Faults.{answers, refuses, fault_number};
ghost use Rattle.model.specs.Refusals.{refusal_outcome};
ghost use Rattle.read_write.specs.ReadPromise.{read_outcome};
ghost use Rattle.read_write.specs.WritePromise.{write_outcome};
ghost use Rattle.judge.specs.ReachPromise.{reach_outcome};
ghost use Rattle.judge.specs.RunPromise.{run_refusal_outcome, run_outcome};
ghost use Rattle.judge.specs.RankPromise.{rank_outcome};
ghost use Rattle.judge.specs.JudgePromise.{verdict_outcome, judge_outcome};
ghost use Rattle.letters.specs.Words.{end_number};
ghost use Rattle.letters.specs.WordDone.{shown_outcome};
ghost use Rattle.judge.specs.WordPromise.{word_outcome};
ghost use Rattle.judge.specs.BookPromise.{book_outcome};
ghost use Rattle.books.specs.Checks.{checked_outcome};
ghost use Rattle.judge.specs.CheckPromise.{check_outcome};
ghost use Rattle.model.specs.Refusals.{refusal_outcome};
ghost use Rattle.page.specs.PagePromise.{page_outcome};
ghost use Rattle.page.specs.PrintPromise.{print_outcome};
ghost use Rattle.till_c.specs.Inner.Tells.{Tells, TellsThree, TellsText};

use books::check::BadEntry;
use judge::judge_word::JudgeWordAnswer;
use judge::run::RunRefusal;
use letters::word::{End, Shown};
use model::refusal::Refusal;
use page::print::ShortList;
use read_write::read::ReadRefusal;
use text::Fault;
use verdicts::judging::Verdict;

// Number 0 with `count` values, or a refusal's number with its place; what is not told is 0.
#[repr(C)]
#[derive(Clone, Copy)]
pub struct TillAnswer {
    pub number: u64,
    pub place: u64,
    pub count: u64,
    pub first: u64,
    pub second: u64,
    pub third: u64,
}

// What Read, Judge and Word answer of a text, one call after the other; the answer of a call that is not made is all 0.
#[repr(C)]
#[derive(Clone, Copy)]
pub struct TillTold {
    pub read: TillAnswer,
    pub judge: TillAnswer,
    pub word: TillAnswer,
}

// A refusal.
fn refusal(number: u64, place: usize) -> TillAnswer
    requires { 0 < number }
    ensures { Tells result (refuses number place) }
{
    TillAnswer {
        number,
        place: place as u64,
        ..done()
    }
}

// A success with no value: all 0.
fn done() -> TillAnswer
    ensures { Tells result (answers []) }
{
    TillAnswer {
        number: 0,
        place: 0,
        count: 0,
        first: 0,
        second: 0,
        third: 0,
    }
}

// A success with one value.
fn value(first: usize) -> TillAnswer
    ensures { Tells result (answers (first ∷ [])) }
{
    TillAnswer {
        count: 1,
        first: first as u64,
        ..done()
    }
}

// A success with two values.
fn two_values(first: usize, second: usize) -> TillAnswer
    ensures { Tells result (answers (first ∷ second ∷ [])) }
{
    TillAnswer {
        count: 2,
        first: first as u64,
        second: second as u64,
        ..done()
    }
}

// The refusals that every operation on a store tests first.
fn store_refusal(refused: Refusal) -> TillAnswer
    ensures { Tells result (refusal_outcome refused) }
{
    match refused {
        Refusal::ShortList(place) => refusal(21, place),
        Refusal::NotGood => refusal(22, 0),
    }
}

// The refusal of a line.
fn fault_answer(fault: Fault, line: usize) -> TillAnswer
    ensures { Tells result (refuses (fault_number fault) line) }
{
    let number = text::fault_number(fault);
    refusal(number as u64, line)
}

// A refusal of Read.
fn unread(refused: ReadRefusal) -> TillAnswer
    ensures { Tells result (read_outcome (Err refused)) }
{
    match refused {
        ReadRefusal::ShortList(place) => refusal(21, place),
        ReadRefusal::TooLong => refusal(1, 0),
        ReadRefusal::Faulty(bad) => fault_answer(bad.fault, bad.line),
    }
}

// What each operation answers, as numbers.
pub fn read_answer(answer: Result<(), ReadRefusal>) -> TillAnswer
    ensures { Tells result (read_outcome answer) }
{
    match answer {
        Ok(()) => done(),
        Err(refused) => unread(refused),
    }
}

pub fn write_answer(answer: Result<usize, Refusal>) -> TillAnswer
    ensures { Tells result (write_outcome answer) }
{
    match answer {
        Ok(length) => value(length),
        Err(refused) => store_refusal(refused),
    }
}

pub fn reach_answer(answer: Result<(), Refusal>) -> TillAnswer
    ensures { Tells result (reach_outcome answer) }
{
    match answer {
        Ok(()) => done(),
        Err(refused) => store_refusal(refused),
    }
}

pub fn rank_answer(answer: Result<u8, Refusal>) -> TillAnswer
    ensures { Tells result (rank_outcome answer) }
{
    match answer {
        Ok(last) => value(last as usize),
        Err(refused) => store_refusal(refused),
    }
}

// Passed has one value, the rank; refused two, step and depth.
fn verdict_answer(v: Verdict) -> TillAnswer
    ensures { Tells result (verdict_outcome v) }
{
    match v {
        Verdict::Passed(top) => value(top as usize),
        Verdict::Refused(step, depth) => two_values(step.0 as usize, depth as usize),
    }
}

pub fn judge_answer(answer: Result<Verdict, Refusal>) -> TillAnswer
    ensures { Tells result (judge_outcome answer) }
{
    match answer {
        Ok(v) => verdict_answer(v),
        Err(refused) => store_refusal(refused),
    }
}

fn run_refusal(refused: RunRefusal) -> TillAnswer
    ensures { Tells result (run_refusal_outcome refused) }
{
    match refused {
        RunRefusal::Before(refused) => store_refusal(refused),
        RunRefusal::NoState(p) => refusal(25, usize::from(p.0)),
        RunRefusal::Unreachable(p) => refusal(26, usize::from(p.0)),
    }
}

pub fn run_answer(answer: Result<usize, RunRefusal>) -> TillAnswer
    ensures { Tells result (run_outcome answer) }
{
    match answer {
        Ok(length) => value(length),
        Err(refused) => run_refusal(refused),
    }
}

// The length of a word, and the end that allows it, 0 for the source and 1 for the target.
fn letters_answer(length: usize, end: End) -> TillAnswer
    ensures { Tells result (answers (length ∷ end_number end ∷ [])) }
{
    match end {
        End::Source => two_values(length, 0),
        End::Target => two_values(length, 1),
    }
}

fn shown_answer(shown: Shown) -> TillAnswer
    ensures { Tells result (shown_outcome shown) }
{
    match shown {
        Shown::Word(length, end) => letters_answer(length, end),
        Shown::NotDeterministic(step) => refusal(23, step.0 as usize),
        Shown::Silent(step) => refusal(36, step.0 as usize),
        Shown::NoLeak => refusal(24, 0),
    }
}

pub fn word_answer(answer: Result<Shown, Refusal>) -> TillAnswer
    ensures { Tells result (word_outcome answer) }
{
    match answer {
        Ok(shown) => shown_answer(shown),
        Err(refused) => store_refusal(refused),
    }
}

pub fn book_answer(answer: Result<(), Refusal>) -> TillAnswer
    ensures { Tells result (book_outcome answer) }
{
    match answer {
        Ok(()) => done(),
        Err(refused) => store_refusal(refused),
    }
}

// The place of a bad entry is its number.
fn checked_answer(found: Result<(), BadEntry>) -> TillAnswer
    ensures { Tells result (checked_outcome found) }
{
    match found {
        Ok(()) => done(),
        Err(bad) => refusal(34, bad.0),
    }
}

pub fn check_answer(answer: Result<Result<(), BadEntry>, Refusal>) -> TillAnswer
    ensures { Tells result (check_outcome answer) }
{
    match answer {
        Ok(found) => checked_answer(found),
        Err(refused) => store_refusal(refused),
    }
}

pub fn page_answer(answer: Result<usize, Refusal>) -> TillAnswer
    ensures { Tells result (page_outcome answer) }
{
    match answer {
        Ok(length) => value(length),
        Err(refused) => store_refusal(refused),
    }
}

pub fn print_answer(answer: Result<usize, ShortList>) -> TillAnswer
    ensures { Tells result (print_outcome answer) }
{
    match answer {
        Ok(length) => value(length),
        Err(short) => refusal(21, short.0),
    }
}

// Where Read refuses, Judge and Word are not called.
fn unread_answer(refused: ReadRefusal) -> TillTold
    ensures { TellsThree result (read_outcome (Err refused)) (answers []) (answers []) }
{
    let read = unread(refused);
    let none = done();
    TillTold {
        read,
        judge: none,
        word: none,
    }
}

fn judged_answer(judge: Result<Verdict, Refusal>, word: Result<Shown, Refusal>) -> TillTold
    ensures { TellsThree result (answers []) (judge_outcome judge) (word_outcome word) }
{
    let read = done();
    let judge = judge_answer(judge);
    let word = word_answer(word);
    TillTold { read, judge, word }
}

pub fn tell_answer(answer: Result<JudgeWordAnswer, ReadRefusal>) -> TillTold
    ensures { TellsText result answer }
{
    match answer {
        Ok(told) => judged_answer(told.judge, told.word),
        Err(refused) => unread_answer(refused),
    }
}
