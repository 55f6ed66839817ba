// A fresh start in wash hours with its first event (document 02, W5), and what stands between two
// events. The promises are in `specs/Fresh.antt` and `specs/Standing.antt`.
#![tactic(auto)]

mod fresh;

pub use fresh::{stand, take_fresh};
