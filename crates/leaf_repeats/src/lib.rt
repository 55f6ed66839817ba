// Whether results of a residual's leaves come again after an event, by a look at some of them. What
// it asks is in `specs/Looking.antt`.
#![tactic(auto)]

mod looking;

pub use looking::repeats;
