// The record of wash hours in seven lent words: the five of the record (crate `words`), then 0
// before the first event and 1 after it, then the last event's minute. The definitions are in
// `specs/Words.antt`.
ghost use Rattle.std.specs.Prelude.{◌≡◌, [], ◌∷◌, ◌++◌, length, replicate};
ghost use Rattle.state.specs.Record.{state_of};
ghost use Rattle.words_spec.specs.Words.{words_of};
ghost use Rattle.wash_state.specs.Answers.{timed_state_of};
ghost use Rattle.wash_words.specs.Words.{timed_in, timed_words};

use state::{State, Verdict};
use wash_state::TimedState;
use words::{load, store};

// What seven words hold: before the first event no other of them is read.
pub fn load_timed(record: &[u64]) -> TimedState
    requires { length «record».now ≡ 7 }
    ensures { timed_state_of result ≡ timed_in «record».now }
{
    if record[5] == 0 {
        return TimedState::NotStarted;
    }
    let state = load(&record[0..5]);
    TimedState::Started(state, record[6])
}

// A record's words, whether there is one, and the minute.
fn store_at(record: &mut [u64], state: State, started: u64, minute: u64)
    requires { length «record».old ≡ 7 }
    ensures { «record».new ≡ words_of (state_of state) ++ started ∷ minute ∷ [] }
{
    store(&mut record[..5], state);
    record[5] = started;
    record[6] = minute;
}

// The record whose words are all 0.
fn zero_state() -> State
    ensures { words_of (state_of result) ≡ replicate 5 0 }
{
    State {
        taken: 0,
        count: 0,
        peak: 0,
        verdict: Verdict::Running,
    }
}

// The words into the lent ones: all 0 before the first event.
pub fn store_timed(record: &mut [u64], state: TimedState)
    requires { length «record».old ≡ 7 }
    ensures { «record».new ≡ timed_words (timed_state_of state) }
{
    match state {
        TimedState::NotStarted => store_at(record, zero_state(), 0, 0),
        TimedState::Started(reached, minute) => store_at(record, reached, 1, minute),
    }
}
