// The moves that are played in a model, listed, and the table of their ranks.

#![tactic(auto)]

pub mod labels;
pub mod moves;
pub mod steps;
pub mod table;
