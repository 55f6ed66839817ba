// The step from one set of residuals to the next (01, "Residuals"), at the level of words: slots of
// sixteen words in an area, ascending. The definitions are in `specs/`; `specs/Lib.antt` lists them
// in reading order, and `specs/Claims.antt` says what `step_set`'s promise comes to.
#![tactic(auto)]

mod starts;
mod steps;

pub use leaf_memo::{forget, keeps_some};
pub use slots::Exceeded;
pub use starts::resolve_set;
pub use steps::step_set;
pub use tree_moves::{Tree, takes_at};
pub use tree_walk::layout::STORE_WORDS;
