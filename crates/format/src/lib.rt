// The program's formats (document 01, "The program and its lines"): "a number, that many table
// bytes, then events" comes in, "One line: `running TAKEN RESIDUALS`, `failed PLACE TAKEN`, or
// `refused NUMBER PLACE`" goes out. The definitions are in crate `line_spec`; `specs/Lib.antt`
// lists what the code's answers are.
//     head                  where the table and the events of an input are
//     conclude, refused     the line of a record, and of a refusal
//     text_of               the text of a line
#![tactic(auto)]

mod answer;
mod header;
mod lines;
mod text;

pub use answer::Line;
pub use header::head;
pub use lines::{conclude, refused};
pub use text::{Text, text_of};
