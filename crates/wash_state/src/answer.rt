// The record with its minute, and the answers (document 02, W5).
use state::{Declined, State};

// Before the first event there is none; after it the record, and the last event's minute. An enum of
// its own and no Option of a pair: the monitor's documents name both cases (`TimedState` of wash_spec).
#[derive(Clone, Copy)]
pub enum TimedState {
    NotStarted,
    Started(State, u64),
}

// What stands after the events; or a refusal by number and place (1 to 10, and 16); or a refusal with
// what stands after the events already taken (11 to 13, and 17).
pub type TimedAnswer = Result<TimedState, Declined<TimedState>>;
