// One event of an input, judged through crate `tracing`, and its line said. Crate `course_spec` has
// what the functions promise.
//     turn            one event
//     say_refusal     a refusal, which is the last line
#![tactic(auto)]

mod event;

pub use event::{say_refusal, turn};
