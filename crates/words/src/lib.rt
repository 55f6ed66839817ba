// What the functions for C take and give (crate `monitor_c`) in lent words: the record, and the
// answers of Read, Write, Open, Feed and Offer, in code. What a call returns and leaves is defined
// in crate `words_spec`.
//     load, store                       a record from five words, and into them
//     tell, tell_offer, tell_table      an answer as a number with a place or a value
//     has_record                        whether an answer has a record
#![tactic(auto)]

mod answers;
mod record;
mod tables;

pub use answers::{has_record, tell, tell_offer};
pub use record::{load, store};
pub use tables::tell_table;
