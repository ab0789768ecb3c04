// Ranks where steps are silent and their moves have no room as sets, by keys: states of one class stay together where
// the moves of each label lead to the same classes.

#![tactic(auto)]

pub mod dividing;
pub mod rounds;
