// What a caller keeps between calls in wash hours, and what a call answers (document 02, W5): the
// types in code. What they stand for is defined in `specs/Answers.antt`, in the terms of crate
// wash_spec.
#![tactic(auto)]

mod answer;

pub use answer::{TimedAnswer, TimedState};
