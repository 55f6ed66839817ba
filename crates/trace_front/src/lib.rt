// The front of an input that is read as it arrives: the length number and the table, and no event.
// The definitions are in `specs/Wanted.antt` and `specs/Front.antt`.
//     wanted         how many bytes more it needs
//     read_front     these read, through reads that may come short
#![tactic(auto)]

mod measure;
mod reader;

pub use measure::wanted;
pub use reader::{Front, read_front};
