// What making a sheet answers.
use table::Refusal;

// How many bytes of the output are the sheet; or refusal 14, 15 or 1, and then none was written.
pub type Sheet = Result<usize, Refusal>;
