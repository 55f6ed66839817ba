// The results of one residual and an event, where bits for its nodes say them (crate `tree_ways`),
// held in an area. The definitions are in `specs/Moving.antt`.
#![tactic(auto)]

mod moves;
mod rebuilding;

pub use moves::step_moves;
pub use rebuilding::rebuild;
pub use tree_ways::{Moves, Tree, Way, takes_at, way_of};
