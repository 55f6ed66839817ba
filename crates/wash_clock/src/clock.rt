// The clock and the start that is due, by the state.
ghost use Rattle.std.specs.Prelude.{◌≡◌};
ghost use Rattle.wash_spec.specs.Taking.{clock_back, start_due};
ghost use Rattle.wash_state.specs.Answers.{timed_state_of};

use timetable::{MINUTE_BOUND, changes};
use wash_state::TimedState;

// Whether the clock went back: a minute below the last one, or none that an event may bring.
pub fn clock_back(state: TimedState, minute: u64) -> bool
    ensures { result ≡ clock_back (timed_state_of state) minute }
{
    match state {
        TimedState::NotStarted => MINUTE_BOUND <= minute,
        TimedState::Started(_, last) => minute < last || MINUTE_BOUND <= minute,
    }
}

// Whether a fresh start is due.
pub fn start_due(windows: &[u16], state: TimedState, minute: u64) -> bool
    ensures { result ≡ start_due windows.now (timed_state_of state) minute }
{
    match state {
        TimedState::NotStarted => true,
        TimedState::Started(_, last) => changes(windows, last, minute),
    }
}
