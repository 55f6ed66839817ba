// A line of a trace, said on standard output, and how many were said. `specs/Spoken.antt` has what
// the functions promise.
//     say            writes a line after those that were said
//     Count::none    the count before the first line
// What a line that was said is made of is decided in `print`, and there alone a `Said` and an
// `Unsaid` can be made, and a count raised.
#![tactic(auto)]

mod print;

pub use print::{Count, Said, Unsaid, say};
