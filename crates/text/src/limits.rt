// The limits of texts, the layout of the model store and the least lengths of all lists, each named once.

// The limits of line 1, of a name, and of the digits of a number.
pub const STATE_LIMIT: u16 = 128;

pub const ACTION_LIMIT: u16 = 64;

pub const STEP_LIMIT: u16 = 1024;

// The extra starts rise, and are above the start of line 1.
pub const EXTRA_LIMIT: u16 = STATE_LIMIT - 1;

pub const NAME_LIMIT: u16 = 12;

pub const DIGIT_LIMIT: usize = 5;

// A text has at most so many bytes.
pub const TEXT_LIMIT: usize = 16384;

// One byte more is read of a text, so that a longer text is told from the longest.
pub const INPUT_LENGTH: usize = TEXT_LIMIT + 1;

// The store is one section behind the other, each of rows of one length. A section added at the end moves none of the
// others. Line 1 comes first: the numbers of states, actions and steps, and the start.
pub const STATE_COUNT_PLACE: usize = 0;

pub const ACTION_COUNT_PLACE: usize = 1;

pub const STEP_COUNT_PLACE: usize = 2;

pub const START_PLACE: usize = 3;

pub const HEAD_END: usize = 4;

// Then the rows of the actions: the level, the length of the name, and the places of the name.
pub const ACTIONS_BEGIN: usize = HEAD_END;

pub const NAME_LENGTH_COLUMN: usize = 1;

pub const NAME_COLUMN: usize = 2;

pub const ACTION_SIZE: usize = NAME_COLUMN + NAME_LIMIT as usize;

pub const ACTIONS_END: usize = ACTIONS_BEGIN + ACTION_SIZE * ACTION_LIMIT as usize;

// Then the rows of the steps: source, action, target.
pub const STEPS_BEGIN: usize = ACTIONS_END;

pub const ACTION_COLUMN: usize = 1;

pub const TARGET_COLUMN: usize = 2;

pub const STEP_SIZE: usize = 3;

pub const STEPS_END: usize = STEPS_BEGIN + STEP_SIZE * STEP_LIMIT as usize;

// Then the extra starts: how many there are, and a place for each.
pub const EXTRA_COUNT_PLACE: usize = STEPS_END;

pub const EXTRA_BEGIN: usize = EXTRA_COUNT_PLACE + 1;

pub const EXTRA_END: usize = EXTRA_BEGIN + EXTRA_LIMIT as usize;

pub const STORE_LENGTH: usize = EXTRA_END;

// Levels of actions in the store, and the greatest of them.
pub const LOW: u16 = 0;

pub const RELEASE: u16 = 1;

pub const HIGH: u16 = 2;

pub const SILENT: u16 = 3;

pub const LAST_LEVEL: u16 = SILENT;

// One place for each state.
pub const DISTANCES_LENGTH: usize = STATE_LIMIT as usize;

// What stands for a state that is not reachable.
pub const UNREACHABLE: u16 = 65535;

// One place for each two states, row by row.
pub const ROW: usize = STATE_LIMIT as usize;

pub const TABLE_LENGTH: usize = ROW * ROW;

// A shortest run, or a word, has fewer steps than there are states.
pub const RUN_LENGTH: usize = STATE_LIMIT as usize - 1;

pub const WORD_LENGTH: usize = STATE_LIMIT as usize - 1;

// The longest page, the longest roll, and the longest text of a model, fit.
pub const PAGE_LENGTH: usize = 5000;

pub const ROLL_LENGTH: usize = 35840;

pub const OUT_LENGTH: usize = 15182;

// A book of plays: side, action, target and depth for each two states, row by row.
pub const ENTRY_SIZE: usize = 4;

pub const BOOK_LENGTH: usize = ENTRY_SIZE * TABLE_LENGTH;

// The action of a silent opening, which no action of a text has.
pub const SILENT_ACTION: u16 = 255;

// Lists that functions keep for themselves: where the steps or moves of each state begin, and where the last one's end;
// the role of each action; one place for each move; where the moves of each state and action begin, and where the last
// one's end.
pub const INDEX_LENGTH: usize = STATE_LIMIT as usize + 1;

pub const ROLES_LENGTH: usize = ACTION_LIMIT as usize;

pub const MOVES_LENGTH: usize = STEP_LIMIT as usize;

pub const GROUPS_LENGTH: usize = STATE_LIMIT as usize * ACTION_LIMIT as usize + 1;
