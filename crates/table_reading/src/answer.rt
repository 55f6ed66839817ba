// What `read_table` answers.

// A table's numbers, the first `count` of the lent list, with the place of the first event.
#[derive(Clone, Copy)]
pub struct TableRead {
    pub count: usize,
    pub next: usize,
}
