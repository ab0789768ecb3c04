// Books of plays, over moves given as lists: the book of the moves' ranks, and the test of any book.

#![tactic(auto)]

pub mod book;
pub mod check;
pub mod entry;
pub mod groups;
pub mod listed;
pub mod openings;
