// The letters of the word that shows a leak.

#![tactic(auto)]

mod branch;
mod letters;
mod silent_steps;
pub mod word;
