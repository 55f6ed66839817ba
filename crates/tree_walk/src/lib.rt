// One residual and one event: every result, held in an area, by a walk over the residual's nodes.
// The definitions are in `specs/`; `specs/Lib.antt` lists them in reading order.
#![tactic(auto)]

pub mod layout;
mod nodes;

pub use nodes::{is_pair, walk};
