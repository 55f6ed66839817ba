// Runs Read, Write and the list check of crates `codec` and `judge` on the cases of `tables.txt`,
// and prints a line for each group of cases, then `ok` if every answer was the stored one.
//     trial      a line as a case, held to its answer
//     call       one call
// The file's head says how a line is read, and where the answers come from.
#![tactic(auto)]

mod call;
mod trial;

use std::io;
use trial::Tables;

fn main(rt: HostRuntime) -> io::Result<()> {
    cases::run(&rt, "tables.txt", &mut Tables::new(rt.alloc()))
}
