// The call, with its state and its answer as the file has them.
use monitor::{Declined, State, TimedAnswer, TimedState, Verdict};

// `STARTED TAKEN COUNT PEAK FAILED AT MINUTE`
pub fn state_of(numbers: [u64; 7]) -> TimedState {
    let [started, taken, count, peak, failed, at, minute] = numbers;
    if started == 0 {
        return TimedState::NotStarted;
    }
    let verdict = match failed {
        0 => Verdict::Running,
        _ => Verdict::Failed(at),
    };
    TimedState::Started(
        State {
            taken,
            count,
            peak,
            verdict,
        },
        minute,
    )
}

// No number but 0 stands for what is not there.
fn numbers_of(state: TimedState) -> [u64; 7] {
    match state {
        TimedState::NotStarted => [0; 7],
        TimedState::Started(state, minute) => {
            let (failed, at) = match state.verdict {
                Verdict::Running => (0, 0),
                Verdict::Failed(at) => (1, at),
            };
            [1, state.taken, state.count, state.peak, failed, at, minute]
        }
    }
}

// An answer as the file has it: `NUMBER PLACE HAS` and a state.
#[derive(Clone, Copy, PartialEq, Eq)]
pub struct Answer {
    pub number: u64,
    pub place: u64,
    pub has: u64,
    pub state: [u64; 7],
}

pub fn answer_of(answer: TimedAnswer) -> Answer {
    match answer {
        Ok(state) => Answer {
            number: 0,
            place: 0,
            has: 1,
            state: numbers_of(state),
        },
        Err(Declined::Refused(refusal)) => Answer {
            number: u64::from(refusal.number),
            place: refusal.place as u64,
            has: 0,
            state: [0; 7],
        },
        Err(Declined::Stopped(refusal, state)) => Answer {
            number: u64::from(refusal.number),
            place: refusal.place as u64,
            has: 1,
            state: numbers_of(state),
        },
    }
}
