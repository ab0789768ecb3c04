// Steps by label, and sets along silent moves: the classes that the moves of each state lead to.

#![tactic(auto)]

pub mod keys;
pub mod steps;
pub mod targets;
pub mod turning;

// Where the steps of each label begin in their lists: the actions, the silent steps, and where these end.
pub const LABELS_LENGTH: usize = text::limits::ACTION_LIMIT as usize + 2;
