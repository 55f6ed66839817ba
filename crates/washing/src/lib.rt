// Feed in wash hours (document 02, W5), proved equal to its definition in crate wash_spec: all of a
// call. One work area is lent, so one table's index stands in it at a time.
#![tactic(auto)]

mod feeder;

pub use feeder::timed_feed;
