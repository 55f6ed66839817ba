// The program that judges an input as it arrives: a table and events on standard input, as
// `line_monitor` has them; on standard output a line at the start and after each event.
// Crate `course` says the line at the start, and then those of the events; the reads of the front
// are those of crate `trace_front`.
// Nothing waits for a full buffer. That of the front has room for a length number and the longest
// table; no event is read with it. An input that cannot be read gets a message on standard error
// and no further line.
#![tactic(auto)]

ghost use Rattle.trace_front.specs.Front.{FrontRead};
ghost use Rattle.trace_monitor.specs.FrontTold.{FrontTold};

use course::Ending;
use input::Failure;
use std::io;
use std::io::{Stdin, Stdout};
use trace_front::Front;

// What is told of an input by its front.
fn told_by(source: &mut Stdin, out: Stdout, front: &[u8], read: Result<Front, Failure>) -> Ending
    requires { FrontRead front.now read }
    ensures { FrontTold front.now read result }
{
    match read? {
        Front::Whole(n) => course::run(source, out, &front[..n]),
        Front::Ended(n, _) => course::run(source, out, &front[..n]),
    }
}

fn main(rt: HostRuntime) -> io::Result<()> {
    let mut source = rt.stdin();
    let mut front = [0u8; 16387];
    let read = trace_front::read_front(&mut source, &mut front);
    match told_by(&mut source, rt.stdout(), &front, read) {
        Ok(_) => Ok(()),
        Err(trouble) => eprintln!(rt; "{trouble}"),
    }
}
