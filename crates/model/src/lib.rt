// The store that holds a till model: how it is made, whether it is good, and what is found in it once for all that
// need it.

#![tactic(auto)]

pub mod good;
pub mod good_store;
pub mod index;
pub mod indexed;
pub mod levels;
pub mod names;
pub mod put;
pub mod refusal;
pub mod roled;
pub mod store;
