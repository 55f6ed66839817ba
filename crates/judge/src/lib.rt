// The judging of a number list, and the index of an accepted table in a lent work area: refusals 7,
// 8 and 9 after those of crate parse, and 2 after them (document 01, "When the monitor declines").
// The definitions are in crate table, `specs/Judge.antt` and `specs/Refusals.antt` for the
// judgement, and in crate table_index, `specs/Index.antt` for the index and `specs/Judging.antt`
// for what the code promises.
#![tactic(auto)]

mod branches;
mod checker;
mod places;
mod references;
mod widths;

pub use checker::{check, check_list, judge};
pub use places::byte_place;
