// A line of a trace, and what `trace_event` answers. What a line stands for is said in
// `specs/Answers.antt`.
use state::{EventBits, State};

// A line of a trace: the record and the events permitted next, at the start or after an event; or
// a refusal by number and place.
#[derive(Clone, Copy)]
pub enum TraceLine {
    Starts {
        state: State,
        permitted: EventBits,
    },
    Takes {
        event: u8,
        state: State,
        permitted: EventBits,
    },
    Refuses {
        number: u8,
        place: u64,
    },
}

// The record after an event, and the events permitted next.
#[derive(Clone, Copy)]
pub struct Traced {
    pub state: State,
    pub permitted: EventBits,
}

// A refusal of an event, placed from the input's first.
#[derive(Clone, Copy)]
pub struct Refused {
    pub number: u8,
    pub place: u64,
}
