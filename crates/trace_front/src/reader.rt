// The front of an input, read as it arrives: its length number and its table, and no event.
ghost use Rattle.std.specs.Prelude.{◌≡◌, length};
ghost use Rattle.trace_front.specs.Front.{FrontRead};

use crate::measure::wanted;
use input::{End, Failure};
use std::io::Stdin;
use std::ops::ControlFlow;

// So many bytes, that need no more; or so many, with which the input ended.
#[derive(Drop)]
pub enum Front {
    Whole(usize),
    Ended(usize, End),
}

// Reads what the front needs, into a buffer that has room for the longest.
pub fn read_front(source: &mut Stdin, front: &mut [u8]) -> Result<Front, Failure>
    requires { length front.old ≡ 16387 }
    ensures { FrontRead front.new result }
{
    // No index counts up: n grows by what came.
    let mut n = 0;
    loop {
        let want = wanted(&front[..n]);
        if want == 0 {
            return Ok(Front::Whole(n));
        }
        let end = n + want;
        match input::arrive(source, &mut front[n..end])? {
            ControlFlow::Continue(more) => n += more,
            ControlFlow::Break(over) => return Ok(Front::Ended(n, over)),
        }
    }
}
