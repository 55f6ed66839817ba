// The state record and its successors (document 01, "Operations": "each call takes the state record
// and hands back its successor"). What it stands for is `state_of` of `specs/Record.antt`.
ghost use Rattle.std.specs.Prelude.{◌≡◌, ◌<◌};
ghost use Rattle.monitor_spec.specs.State.{counted, holding, fresh_state};
ghost use Rattle.state.specs.Record.{state_of, succeeding};

// Running, or failed at a place.
#[derive(Clone, Copy)]
pub enum Verdict {
    Running,
    Failed(u64),
}

// The events taken, the residuals held, the most that were held since it was opened, and the
// verdict.
#[derive(Clone, Copy)]
pub struct State {
    pub taken: u64,
    pub count: u64,
    pub peak: u64,
    pub verdict: Verdict,
}

impl State {
    // One event more is taken.
    pub(crate) fn take(self) -> Self
        requires { self.taken < 18446744073709551615 }
        ensures { state_of result ≡ counted (state_of self) }
    {
        State {
            taken: self.taken + 1,
            ..self
        }
    }

    // No residual is left: failed at the events taken, unless it failed before.
    pub fn fail(self) -> Self
        ensures { state_of result ≡ holding (state_of self) 0 }
    {
        let verdict = match self.verdict {
            Verdict::Running => Verdict::Failed(self.taken),
            Verdict::Failed(place) => Verdict::Failed(place),
        };
        State {
            count: 0,
            verdict,
            ..self
        }
    }

    // So many residuals are held; with none it fails.
    pub(crate) fn hold(mut self, count: u64) -> Self
        ensures { state_of result ≡ holding (state_of self) count }
    {
        if count == 0 {
            return self.fail();
        }
        self.count = count;
        self.peak = self.peak.max(count);
        self
    }

    // The record with no event taken and so many residuals held.
    pub fn fresh(count: u64) -> Self
        ensures { state_of result ≡ fresh_state count }
    {
        let state = State {
            taken: 0,
            count: 0,
            peak: 0,
            verdict: Verdict::Running,
        };
        state.hold(count)
    }

    // The record after one event that left so many residuals. A counter that is full stays, and the
    // record with it: Feed refuses there (12).
    pub fn after(self, count: u64) -> Self
        ensures { state_of result ≡ succeeding (state_of self) count }
    {
        if self.taken == 18446744073709551615 {
            return self;
        }
        self.take().hold(count)
    }
}
