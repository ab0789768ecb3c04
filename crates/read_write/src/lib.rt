// Reading and writing: Read and Write.

#![tactic(auto)]

pub mod read;
pub mod write;
