// Runs the functions of crate `line` on the inputs of `lines.txt`, at once and in pieces, and
// prints a line for each group of inputs, then `ok` if every line was the stored one.
//     drawing    the lines of the file: parts of a case, and cases
//     trial      one input, held to its lines
//     call       the calls, with their lines as the file has them
// The file's head says how a line is read, and where the answers come from.
#![tactic(auto)]

mod call;
mod drawing;
mod trial;

use drawing::Drawing;
use std::io;

fn main(rt: HostRuntime) -> io::Result<()> {
    cases::run(&rt, "lines.txt", &mut Drawing::new(rt.alloc()))
}
