// Standard input, a lent buffer at a time.
//     fill       a lent buffer, filled with what comes next
//     arrive     one read into a lent buffer: what has arrived
//     Failure    a read failed; its text is the message
// What one read leaves is decided in `reading`, and there alone a part of a buffer can be made that
// is the input's last, an end and a failure. `specs/Reading.antt` and `specs/Arrival.antt` have the
// definitions.
#![tactic(auto)]

mod reading;

ghost use Rattle.std.specs.Prelude.{length};
ghost use Rattle.input.specs.Reading.{Fills};
ghost use Rattle.input.specs.Arrival.{Arrives};

pub use reading::{Arrived, End, Failure, Part};
use reading::{after_arrival, after_read};
use std::io::{Read, Stdin};
use std::ops::ControlFlow;

// Reads until the buffer is full, the input ends or a read fails.
pub fn fill(source: &mut Stdin, buffer: &mut [u8]) -> Result<Part, Failure>
    ensures { Fills (length buffer.new) result }
{
    // No index counts up: n grows by what came. std's `read_exact` would read on after an interrupt.
    let mut n = 0;
    loop {
        let got = source.read(&mut buffer[n..]);
        match after_read(buffer.len(), n, got)? {
            ControlFlow::Continue(next) => n = next,
            ControlFlow::Break(part) => return Ok(part),
        }
    }
}

// Reads once, and waits only while nothing has arrived: the bytes that came, one at least where the
// buffer has room, or the end of the input, or a failure.
pub fn arrive(source: &mut Stdin, buffer: &mut [u8]) -> Arrived
    ensures { Arrives (length buffer.new) result }
{
    let got = source.read(buffer);
    after_arrival(buffer.len(), got)
}
