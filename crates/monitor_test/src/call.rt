// The records and answers of the calls, as the file has them (01, "Operations", "When the monitor declines").
use monitor::{Answer, Declined, EventBits, State, Verdict};
use table::Refusal;

// `TAKEN COUNT PEAK FAILED AT`
pub fn state_of(numbers: [u64; 5]) -> State {
    let [taken, count, peak, failed, at] = numbers;
    let verdict = match failed {
        0 => Verdict::Running,
        _ => Verdict::Failed(at),
    };
    State {
        taken,
        count,
        peak,
        verdict,
    }
}

// An answer as `NUMBER PLACE HAS TAKEN COUNT PEAK FAILED AT`, and the record if it has one.
#[derive(Clone, Copy)]
pub struct Answered {
    pub numbers: [u64; 8],
    pub state: Option<State>,
}

fn with_state(number: u64, place: u64, state: State) -> Answered {
    let (failed, at) = match state.verdict {
        Verdict::Running => (0, 0),
        Verdict::Failed(at) => (1, at),
    };
    Answered {
        numbers: [
            number,
            place,
            1,
            state.taken,
            state.count,
            state.peak,
            failed,
            at,
        ],
        state: Some(state),
    }
}

pub fn answer_of(answer: Answer) -> Answered {
    match answer {
        Ok(state) => with_state(0, 0, state),
        Err(Declined::Refused(refusal)) => Answered {
            numbers: [
                u64::from(refusal.number),
                refusal.place as u64,
                0,
                0,
                0,
                0,
                0,
                0,
            ],
            state: None,
        },
        Err(Declined::Stopped(refusal, state)) => {
            with_state(u64::from(refusal.number), refusal.place as u64, state)
        }
    }
}

// `NUMBER PLACE FIRST SECOND`
pub fn offer_of(answer: Result<EventBits, Refusal>) -> [u64; 4] {
    match answer {
        Ok(bits) => [0, 0, bits.first, bits.second],
        Err(refusal) => [u64::from(refusal.number), refusal.place as u64, 0, 0],
    }
}
