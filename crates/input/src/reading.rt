// What one read leaves of a buffer: of one that is being filled, and of one that is read into once.
//     Part, Failure     what a filled buffer holds; that a read failed
//     after_read        by what `read` answered
//     End, Arrived      the end of the input; what one read brought
//     after_arrival     by what `read` answered
ghost use Rattle.std.specs.Prelude.{◌≤◌, ◌≡◌};
ghost use Rattle.input.specs.Reading.{after_read};
ghost use Rattle.input.specs.Arrival.{after_arrival};

use std::fmt::Display;
use std::ops::ControlFlow;
use std::{fmt, io};

// The first `count` bytes of a buffer are the input's. They are its last, or the buffer is full.
// Only `after_read` makes one: no other code can say that an input ended.
#[derive(Clone, Copy)]
pub struct Part {
    count: usize,
    // A flag: it is handed on as one, and the variants of an enum could be made by any code.
    last: bool,
}

impl Part {
    pub fn count(self) -> usize
        ensures { result ≡ self.count }
    {
        self.count
    }

    pub fn last(self) -> bool
        ensures { result ≡ self.last }
    {
        self.last
    }
}

// A read failed, and then nothing of the buffer is to be judged. Only `after_read` and
// `after_arrival` make one.
#[derive(Drop)]
pub struct Failure {
    error: io::Error,
}

impl Failure {
    pub fn error(&self) -> io::Error
        ensures { result ≡ self.now.error }
    {
        self.error
    }
}

// The message that the input could not be read.
impl Display for Failure {
    fn fmt<W: fmt::Write>(&self, f: &mut fmt::Formatter<W>) -> fmt::Result {
        write!(f, "standard input: {}", self.error)
    }
}

// Into a buffer of that size, of which n bytes stood, a read answered `got`: so many bytes stand,
// and there is room for more; or the buffer is not read into any more.
#[tactic(auto, unfolding(crate::specs::Reading::after_read))]
pub fn after_read(
    size: usize,
    n: usize,
    got: io::Result<usize>,
) -> Result<ControlFlow<Part, usize>, Failure>
    requires { n ≤ size }
    ensures { result ≡ after_read size n got }
{
    let more = got.map_err(|error| Failure { error })?;
    if size - n <= more {
        return Ok(ControlFlow::Break(Part {
            count: size,
            last: false,
        }));
    }
    if more == 0 {
        return Ok(ControlFlow::Break(Part {
            count: n,
            last: true,
        }));
    }
    Ok(ControlFlow::Continue(n + more))
}

// The input ended. Only `after_arrival` makes one.
#[derive(Drop)]
pub struct End {
    seal: (),
}

// What one read brought: so many bytes, or the end of the input; or a failure.
pub type Arrived = Result<ControlFlow<End, usize>, Failure>;

// Into a buffer of that size a read answered `got`. An empty buffer tells nothing of the input.
#[tactic(auto, unfolding(crate::specs::Arrival::after_arrival))]
pub fn after_arrival(size: usize, got: io::Result<usize>) -> Arrived
    ensures { result ≡ after_arrival size got }
{
    let came = got.map_err(|error| Failure { error })?;
    if size <= came {
        return Ok(ControlFlow::Continue(size));
    }
    if came == 0 {
        return Ok(ControlFlow::Break(End { seal: () }));
    }
    Ok(ControlFlow::Continue(came))
}
