// Bytes written one after the other: the output position, and the lines of a text.

#![tactic(auto)]

mod lines;
pub mod position;
