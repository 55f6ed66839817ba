// What stands before the first event of a call in wash hours (document 02, W5), proved equal to its
// definition in crate wash_spec.
#![tactic(auto)]

mod entry;

pub use entry::enter_timed;
