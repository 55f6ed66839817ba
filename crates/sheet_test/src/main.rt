// Runs `sheet` of crate `sheet` on the lot books of `sheets.txt`, and prints a line for each group
// of cases, then `ok` if every answer was the stored one.
//     trial      a line as a case, held to its answer
//     call       one call
// The file's head says how a line is read, and where the answers come from.
#![tactic(auto)]

mod call;
mod trial;

use std::io;
use trial::Books;

fn main(rt: HostRuntime) -> io::Result<()> {
    cases::run(&rt, "sheets.txt", &mut Books::new(rt.alloc()))
}
