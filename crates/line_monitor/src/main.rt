// The program (document 01, "The program and its lines"): a table and events on standard input, one
// line on standard output.
//     pieces     the front of the input, then its pieces, through crates `input` and `line`
//     print      the line
// The front is as long as a length number and the longest table, so that the table is read from it
// whole. An input that cannot be read gets a message on standard error and no line.
#![tactic(auto)]

mod pieces;
mod print;

use std::io::Result;

fn main(rt: HostRuntime) -> Result<()> {
    let mut source = rt.stdin();
    let mut front = [0u8; 16387];
    let part = match input::fill(&mut source, &mut front) {
        Ok(part) => part,
        Err(failure) => return eprintln!(rt; "{failure}"),
    };
    match pieces::run(&mut source, &front, part) {
        Ok(line) => print::say(rt.stdout(), rt.stderr(), line),
        Err(failure) => eprintln!(rt; "{failure}"),
    }
}
