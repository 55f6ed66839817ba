// One event with its minute (document 02, W5), on the table in force then: 17, a fresh start where
// one is due, then 11 to 13. The promises are in `specs/Event.antt`.
#![tactic(auto)]

mod event;

pub use event::take_timed;
