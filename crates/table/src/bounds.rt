// Bounds of a table's numbers: `specs/Rows.antt` says what they are.
pub const ALPHABET_MOST: u16 = 128;

pub const LARGE_ABOVE: u16 = 64;

pub const LARGE_ROWS_MOST: usize = 3072;
