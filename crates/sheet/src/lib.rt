// The lot sheet (request W2) in code, proved equal to the definitions of crate `sheet_spec`.
//     sheet, Sheet     the sheet of a book, written to an output
#![tactic(auto)]

mod line;
mod printing;
mod writing;

pub use printing::sheet;
pub use sheet_spec::Sheet;
