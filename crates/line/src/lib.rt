// What the program says of an input (document 01, "The program and its lines"), on a whole input or
// piece by piece. The definitions are in crate `line_spec`; `specs/Answers.antt` says what the
// answers are. Reading the table stands in crate `table_reading`, the pieces in `resuming`, the
// head and the end in `format`.
//     line                    a whole input
//     open, resume, conclude  its front, each piece after it, its end
//     after_piece             what comes after a piece, where the input ended or did not
//     take_piece              `resume` on a piece, and then `after_piece`
//     head                    where the table and the events of an input are
//     read_table              its head and its table, read into a lent list
#![tactic(auto)]

mod answer;
mod opener;
mod whole;

pub use answer::Started;
pub use format::{Line, conclude, head};
pub use opener::open;
pub use resuming::{after_piece, resume, take_piece};
pub use table_reading::{TableRead, read_table};
pub use whole::line;
