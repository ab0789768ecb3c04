// The page and its roll: Page, Roll, and the path from a text to either.

#![tactic(auto)]

pub mod page;
pub mod print;
pub mod printed;
