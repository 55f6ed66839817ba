// Makes the calls of the histories in `histories.txt` with Open, Feed, Try, Offer and View of
// crate `monitor`, and prints a line for each group of histories, then `ok` if all was as stored.
//     history    what the calls are lent, and the lines that change it
//     trial      the lines that call, held to their answers
//     call       the answers of the calls as the file has them
// The file's head says how a line is read, and where the answers come from.
#![tactic(auto)]

mod call;
mod history;
mod trial;

use history::History;
use std::io;

fn main(rt: HostRuntime) -> io::Result<()> {
    cases::run(&rt, "histories.txt", &mut History::new(rt.alloc())?)
}
