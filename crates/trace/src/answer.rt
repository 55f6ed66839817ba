// What `open_trace` gives.
use state::{EventBits, State};

// A monitor before any event, on the first `count` numbers of the lent list, with the events
// permitted first and the place of the input's first event. `Started` of crate `line` has no such
// events, and neither crate is below the other.
#[derive(Drop)]
pub struct Started {
    pub state: State,
    pub permitted: EventBits,
    pub count: usize,
    pub next: usize,
}
