// Where the parts of a store stand: `specs/Layout.antt` says what they are.

pub const MEMO_AT: usize = 4112;

pub const ENTRY_COUNT: usize = 32;

pub const ENTRY_WORDS: usize = 16;

pub const ENTRY_MOST: u64 = 13;

pub const STORE_WORDS: usize = MEMO_AT + ENTRY_COUNT * ENTRY_WORDS;
