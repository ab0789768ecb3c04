// Moves as sets: for each label and state, the targets of its moves and the sources of the moves to it.

#![tactic(auto)]

pub mod labels;
pub mod list;
pub mod reading;
pub mod slots;

// The labels: the actions, and that of the silent moves.
pub const LABEL_COUNT: usize = text::limits::ACTION_LIMIT as usize + 1;

// Two rows for each label, the targets and the sources.
const SLOT_ROWS: usize = 2 * LABEL_COUNT;

// A slot in them for each state.
pub const SLOTS_LENGTH: usize = SLOT_ROWS * text::limits::ROW;

// The sets that slots have. Besides the empty one there is room for two of each of 1,024 steps, or for all 2,304 of 9
// labels among 128 states, and for those of more labels where equal sets are shared.
pub const POOL_SETS: u16 = 2432;

// Two words for each of them, and for one set more of each row.
pub const POOL_LENGTH: usize = 2 * (POOL_SETS as usize + SLOT_ROWS);

// The places at which a shared set is looked for.
const SEEN_LENGTH: usize = 1024;
