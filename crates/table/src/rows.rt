// What the reading of a set gives.

// A row as the two words of its mask, and the place after it.
#[derive(Clone, Copy)]
pub struct Row {
    pub low: u64,
    pub high: u64,
    pub next: usize,
}

// A set's kind, the place after it and the row after its rows.
#[derive(Clone, Copy)]
pub struct SetEnd {
    pub next: usize,
    pub kind: u64,
    pub row: usize,
}
