// A timetable of wash hours (document 02, W5) in code, proved equal to the definitions of crate
// `timetable_spec`.
//     good_timetable          whether a list is a timetable
//     in_force                whether the table for wash hours is in force at an absolute minute
//     changes                 whether the table in force changes after one minute, up to another
#![tactic(auto)]

mod change;
mod force;
mod judging;
mod window;

pub use change::changes;
pub use force::in_force;
pub use judging::good_timetable;

// The minutes of a week.
pub const WEEK: u64 = 10080;

// Absolute minutes are below it: 2^48.
pub const MINUTE_BOUND: u64 = 281474976710656;
