// Between the areas and the residual sets that a call has met (crate met_sets): a set that is in
// the present area is kept, or found among those kept; a set is laid into it.
#![tactic(auto)]

mod picker;

pub use picker::{lay_out, lay_set, pick_first, pick_up};
