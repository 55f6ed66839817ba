// What the operations of the table layer refuse with.

// A refusal of document 01, by its number and its place.
#[derive(Clone, Copy)]
pub struct Refusal {
    pub number: u8,
    pub place: usize,
}
