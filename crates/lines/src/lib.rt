// The lines of a page.

#![tactic(auto)]

mod class;
mod leak;
pub mod lines;
mod states;
pub mod whole;
