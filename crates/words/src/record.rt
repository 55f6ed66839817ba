// The state record in five lent words: the events taken, the residuals held, 0 for running or 1 for
// failed, the place of the failure (0 while running), and the peak. The definitions are in
// `specs/Words.antt` of crate `words_spec`.
ghost use Rattle.std.specs.Prelude.{◌≡◌, length};
ghost use Rattle.state.specs.Record.{verdict_of, state_of};
ghost use Rattle.words_spec.specs.Words.{verdict_in, state_in, words_of};

use state::{State, Verdict};

// The verdict in two words: any word but 0 is read as failed.
fn verdict_in(failed: u64, place: u64) -> Verdict
    ensures { verdict_of result ≡ verdict_in failed place }
{
    if failed == 0 {
        Verdict::Running
    } else {
        Verdict::Failed(place)
    }
}

// The record that five words hold. Read by index: the functions for C lend a slice, no array.
pub fn load(record: &[u64]) -> State
    requires { length «record».now ≡ 5 }
    ensures { state_of result ≡ state_in «record».now }
{
    State {
        taken: record[0],
        count: record[1],
        peak: record[4],
        verdict: verdict_in(record[2], record[3]),
    }
}

// A record's words into the lent ones.
pub fn store(record: &mut [u64], state: State)
    requires { length «record».old ≡ 5 }
    ensures { «record».new ≡ words_of (state_of state) }
{
    match state.verdict {
        Verdict::Running => record.copy_from_slice(&[state.taken, state.count, 0, 0, state.peak]),
        Verdict::Failed(place) => {
            record.copy_from_slice(&[state.taken, state.count, 1, place, state.peak])
        }
    }
}
