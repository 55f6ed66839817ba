// A lot book (request W2): "one record per lot, in numbers of seven-bit groups (here up to ten
// bytes): lot, taken, 0 for running or 1 for failed, place (0 if running)". The definitions are in
// `specs/Lib.antt`.
//     lot_at, Lot         the record at a position
//     judge, Judged       all records of a book, judged first to last: how many, and their sum
#![tactic(auto)]

mod entry;
mod judging;
mod number;

pub use entry::{Lot, lot_at};
pub use judging::{BadRecord, Judged, judge};
