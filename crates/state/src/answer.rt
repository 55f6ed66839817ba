// What the operations answer (document 01, "When the monitor declines").
ghost use Rattle.std.specs.Prelude.{◌≡◌};
ghost use Rattle.state.specs.declared.answer.Declined.TheVariants.{Refused};

use crate::record::State;
use table::Refusal;

// Why an operation does not answer a record: a refusal by number and place (1 to 10, 13 while
// settling, and 16); or a refusal with what stands after the events already taken (11 to 13, and 17).
#[derive(Clone, Copy)]
pub enum Declined<S> {
    Refused(Refusal),
    Stopped(Refusal, S),
}

impl<S> From<Refusal> for Declined<S> {
    ghost from_gives = { λ refusal declined. declined ≡ Refused refusal };

    fn from(refusal: Refusal) -> Declined<S> {
        Declined::Refused(refusal)
    }
}

// The record after the events, or why it is not that.
pub type Answer = Result<State, Declined<State>>;

// A bit for each event (document 02, W6): bit e of the first word is event e, of the second 64 + e.
#[derive(Clone, Copy)]
pub struct EventBits {
    pub first: u64,
    pub second: u64,
}
