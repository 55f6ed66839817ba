// What one read of an input brought: its events, each judged and said, or the end. Crate
// `course_spec` has what the functions promise.
//     after_arrived     by what arrived
#![tactic(auto)]

mod reads;

pub use reads::after_arrived;
