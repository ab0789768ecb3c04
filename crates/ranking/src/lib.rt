// The table of ranks: what a round writes into it, and what it holds after the last.

#![tactic(auto)]

pub mod table;
pub mod writes;
