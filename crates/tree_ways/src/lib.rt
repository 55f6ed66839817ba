// What becomes of one residual at an event, where bits for its nodes can say it (01, "Residuals"),
// and whether it may take an event. The definitions are in `specs/`; `specs/Lib.antt` lists them in
// reading order.
#![tactic(auto)]

mod only;
mod takes;

pub use only::{Moves, Way, way_of};
pub use takes::{Tree, takes_at};
