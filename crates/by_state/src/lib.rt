// What is kept in lists: the steps of each state, and the class of each.

#![tactic(auto)]

pub mod lists;
pub mod stores;

// The number of a class of states.
#[derive(Clone, Copy, PartialEq, Eq)]
pub struct Class(pub u16);
