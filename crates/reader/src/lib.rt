// The lines of a text, read into a store.

#![tactic(auto)]

mod actions;
pub mod answers;
mod body;
mod end;
pub mod reader;
mod starts;
mod steps;
