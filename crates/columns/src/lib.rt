// The columns of the receipt roll: its lines, and the lines of a state.

#![tactic(auto)]

pub mod line;
mod names;
pub mod states;
