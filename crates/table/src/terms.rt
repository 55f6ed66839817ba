// What the reading of a term is told and what it gives.

// Where a term stands: how many prefixes and whether a parallel is around it, whether it is a body
// or a prefix's follower, and its definition.
#[derive(Clone, Copy)]
pub struct Spot {
    pub prefixes: u64,
    pub parallel: u64,
    pub entry: u64,
    pub own: u64,
}

// What a term's word says apart from its right side.
#[derive(Clone, Copy)]
pub struct Head {
    pub kind: u64,
    pub parameter: u64,
    pub target: u64,
    pub spot: Spot,
}

// A set reference: the set's first row, 0 or the parameter and 1, and the place after it.
#[derive(Clone, Copy)]
pub struct Reference {
    pub target: u64,
    pub parameter: u64,
    pub next: usize,
}

// The place and the term number after what was read.
#[derive(Clone, Copy)]
pub struct TermEnd {
    pub next: usize,
    pub terms: usize,
}
