// What `open` gives. What it stands for is said in `specs/Answers.antt`.
use state::State;

// A fresh monitor on the first `count` numbers of the lent list, with the place of the first event.
#[derive(Drop)]
pub struct Started {
    pub state: State,
    pub count: usize,
    pub next: usize,
}
