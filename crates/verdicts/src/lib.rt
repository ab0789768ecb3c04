// The verdict on a model, from its distances and ranks.

#![tactic(auto)]

pub mod judging;
