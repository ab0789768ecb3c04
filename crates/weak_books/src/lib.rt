// Books of plays where steps are silent: the book of the moves' ranks, and the test of any book, by sets or label by
// label.

#![tactic(auto)]

pub mod apart;
pub mod book;
pub mod check;
pub mod depths;
pub mod entering;
pub mod entries;
pub mod filling;
pub mod firsts;
pub mod labels;
pub mod opening;
pub mod ranked;
pub mod seconds;

// One place for each value of a byte: an entry's action, or its depth.
pub const BYTE_VALUES: usize = 256;
