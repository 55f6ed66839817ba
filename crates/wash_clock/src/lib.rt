// What an event's minute says before the event is taken (document 02, W5): whether the clock went
// back, and whether a fresh start is due, proved equal to the definitions in crate wash_spec.
#![tactic(auto)]

mod clock;

pub use clock::{clock_back, start_due};
