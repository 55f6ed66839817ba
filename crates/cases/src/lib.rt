// A file of test cases: what the test programs share.
//     file       the file, line by line, and the trial of each case
//     tally      groups of cases, and what is printed of them
//     words      the numbers of a line
//     element    what lent buffers are made of: what they hold before a call, and their digest after it
//     work       how a work area stands after a call
//     answer     what is stored of a call: its result, or its refusal
#![tactic(auto)]

mod answer;
mod element;
mod fault;
mod file;
mod tally;
mod words;
mod work;

pub use answer::{Answer, Refused, stored_answer};
pub use element::{Element, digest, digest_more, fill, is_kept, lend};
pub use fault::Fault;
pub use file::{Trial, run};
pub use tally::{Group, Outcome, Standing, Tally};
pub use words::{answered, length, numbers, read_list, section};
pub use work::stands;
