// The lot sheet (request W2): the records of a lot book as lines of 48 characters and line feed,
// and a last line with the sum of what they took. Definitions, theorems and the type of the answer;
// no functions. `specs/Lib.antt` lists the definitions in reading order, `specs/Claims.antt` what
// is proved of them.
#![tactic(auto)]

mod answer;

pub use answer::Sheet;
