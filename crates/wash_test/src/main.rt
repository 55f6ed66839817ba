// Runs `timed_feed` of crate `monitor` on the calls of `washes.txt`, and prints a line for each
// group of calls, then `ok` if every answer was the stored one.
//     trial      a line as a call, held to its answer
//     call       one call
// The file's head says how a line is read, and where the answers come from.
#![tactic(auto)]

mod call;
mod trial;

use std::io;
use trial::Washes;

fn main(rt: HostRuntime) -> io::Result<()> {
    cases::run(&rt, "washes.txt", &mut Washes::new(rt.alloc()))
}
