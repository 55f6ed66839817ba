// The head of an input (document 01, "The program and its lines": "a number, that many table bytes,
// then events").
ghost use Rattle.std.specs.Prelude.{◌≤◌};
ghost use Rattle.format.specs.Head.{CutSaid, HeadSaid};

use numbers::{ReadError, Reading};
use std::ops::Range;
use table::Refusal;

// Where the table bytes are, in an input of so many bytes whose length number is `value` and ends
// at `next`.
fn cut(size: usize, value: usize, next: usize) -> Result<Range<usize>, Refusal>
    requires { next ≤ size }
    ensures { CutSaid size value next result }
{
    if 16384 < value {
        return Err(Refusal {
            number: 2,
            place: 0,
        });
    }
    let rest = size - next;
    if rest < value {
        return Err(Refusal {
            number: 3,
            place: rest,
        });
    }
    Ok(next..next + value)
}

// Where the table bytes of an input are, at whose end its events begin; or what is wrong with its
// length number, or that the input ends within the table.
pub fn head(input: &[u8]) -> Result<Range<usize>, Refusal>
    ensures { HeadSaid input.now result }
{
    match numbers::read(input, 0) {
        Ok(Reading { value, next }) => cut(input.len(), value as usize, next),
        Err(ReadError::Truncated) => Err(Refusal {
            number: 3,
            place: 0,
        }),
        Err(ReadError::Malformed) => Err(Refusal {
            number: 4,
            place: 0,
        }),
    }
}
