// Learning where an event leads from a residual set that a call has met: the event is taken, and
// the set after it is kept.
#![tactic(auto)]

mod learner;

pub use learner::learn;
