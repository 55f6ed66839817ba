// The head and the table of an input, read into a lent list. `specs/TableRead.antt` has what the
// function promises.
//     read_table     the table's numbers, or a refusal
#![tactic(auto)]

mod answer;
mod reader;

pub use answer::TableRead;
pub use reader::read_table;
