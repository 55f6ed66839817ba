// The results of a residual's leaves after an event, prepared in a step's store. The definitions
// are in `specs/Prepared.antt`.
#![tactic(auto)]

mod preparing;

pub use preparing::prepare;
