// From a text to what is told of it.

#![tactic(auto)]

pub mod tell;
