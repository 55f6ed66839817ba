// Valid slots in code (document 01, "Disturbed"): whether a slot is valid, whether it stands before
// another, and whether words are zero, proved equal to the definitions in crate monitor_spec.
#![tactic(auto)]

mod valid;

pub use valid::{all_zero, below, slot_fits};
