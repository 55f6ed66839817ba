// The events of a long call from a place on: stretches over the residual sets met, and of events
// one after the other.
#![tactic(auto)]

mod stretches;

pub use stretches::take_long;
