// Where the parts of a table's index stand in the work area, and the digits of a term's word:
// `specs/Layout.antt` says what they are.
//     word = kind + 2^3 * parameter + 2^6 * parallel + 2^7 * entry + 2^8 * prefixes + 2^14 * own
//            + 2^19 * right + 2^30 * target + 2^46 * width
//     width = reach + 2^4 * branches once both are known

pub const WORD_EVENTS: u64 = 64;

pub const SECOND_AT: usize = 3072;

pub const TERMS_AT: usize = 6144;

pub const SETS_AT: usize = TERMS_AT + 1024;

pub const BODIES_AT: usize = SETS_AT + 64;

pub const LEVELS_AT: usize = BODIES_AT + 33;

pub const WIDTHS_AT: usize = LEVELS_AT + 32;

pub const ALPHABET_AT: usize = WIDTHS_AT + 8;

pub const DEFINITION_COUNT_AT: usize = ALPHABET_AT + 1;

pub const TERM_COUNT_AT: usize = DEFINITION_COUNT_AT + 1;

pub const START_AT: usize = TERM_COUNT_AT + 1;

// What 1 of each digit counts in the word, and how many values the digit has.
pub const KINDS: u64 = 1 << 3;

pub const PARAMETER_UNIT: u64 = 1 << 3;

pub const PARAMETERS: u64 = 1 << 3;

pub const PARALLEL_UNIT: u64 = 1 << 6;

pub const PARALLELS: u64 = 2;

pub const ENTRY_UNIT: u64 = 1 << 7;

pub const ENTRIES: u64 = 2;

pub const PREFIXES_UNIT: u64 = 1 << 8;

pub const PREFIX_COUNTS: u64 = 1 << 6;

pub const OWN_UNIT: u64 = 1 << 14;

pub const OWNS: u64 = 1 << 5;

pub const RIGHT_UNIT: u64 = 1 << 19;

pub const RIGHTS: u64 = 1 << 11;

pub const TARGET_UNIT: u64 = 1 << 30;

pub const TARGETS: u64 = 1 << 16;

pub const WIDTH_UNIT: u64 = 1 << 46;

pub const REACHES: u64 = 1 << 4;

pub const BRANCHES_UNIT: u64 = 1 << 50;

pub const BRANCH_COUNTS: u64 = 1 << 9;
