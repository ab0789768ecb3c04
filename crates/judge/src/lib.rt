// Judging: Reach, Rank, Judge, Run, Word, Book and Check.

#![tactic(auto)]

pub mod book;
pub mod check;
pub mod judge;
pub mod judge_word;
pub mod rank;
pub mod reach;
pub mod run;
pub mod word;
