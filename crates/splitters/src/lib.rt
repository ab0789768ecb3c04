// Ranks by splitters: a round divides the classes by the moves to the classes that the round before made, as sets.

#![tactic(auto)]

pub mod dividing;
pub mod incoming;
pub mod leading;
pub mod parts;
pub mod refining;
pub mod rounds;
