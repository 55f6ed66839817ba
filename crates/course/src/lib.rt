// The course of an input: the line at its start, and then a line for each event, said as soon as it
// is read. Crate `course_spec` has what the functions promise.
//     run       from its front on
//     Ending    how it came to its end, or why the program stopped before
#![tactic(auto)]

mod runner;

pub use course_spec::{Ending, Told, Trouble};
pub use runner::run;
