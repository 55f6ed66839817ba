// What the program with a line for each event says of an input, from its front on: definitions and
// laws, and the types that the code answers. The functions are in crates turning, arrivals and
// course. `specs/Course.antt` has what each promises.
#![tactic(auto)]

mod answer;

pub use answer::{Course, Ending, Told, Trouble};
