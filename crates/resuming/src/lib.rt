// A started monitor on piece after piece of an input, and its line at the end. The definitions are
// in crate `line_spec`; `specs/Answers.antt` says what the answers are.
//     resume          a piece of events more
//     after_piece     what comes after a piece, where the input ended or did not
//     take_piece      `resume` on a piece, and then `after_piece`
#![tactic(auto)]

mod feeder;

pub use feeder::{after_piece, resume, take_piece};
