// What the function of the wash hours for C takes and gives (crate `monitor_c`) in lent words: the
// record with its minute, and the answer. What a call returns and leaves is defined in `specs/`;
// `specs/Lib.antt` lists the definitions in reading order.
//     load_timed, store_timed     a record from seven words, and into them
//     tell_timed                  an answer as a number with a place
#![tactic(auto)]

mod answers;
mod record;

pub use answers::tell_timed;
pub use record::{load_timed, store_timed};
