// Entering an operation (document 01, "When the monitor declines": "Order: 1; 2; .. 9; 10"): lent
// lengths, the table, and whether state and areas agree, proved equal to the definitions in crate
// monitor_spec.
#![tactic(auto)]

mod entry;

pub use entry::{enter, enter_on};
