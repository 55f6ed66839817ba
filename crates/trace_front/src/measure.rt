// How many bytes more the front of an input needs (document 01, "The program and its lines": "a
// number, that many table bytes, then events").
ghost use Rattle.std.specs.Prelude.{◌≡◌, ◌-◌, ◌≤◌};
ghost use Rattle.trace_front.specs.Wanted.{missing_of, wanted_of};

use numbers::{ReadError, Reading};

// What is missing of a table of `value` bytes that begins at `next`, in an input of so many bytes;
// 0 for one that is too long.
#[tactic(auto, unfolding(crate::specs::Wanted::missing_of))]
fn missing(size: usize, value: usize, next: usize) -> usize
    requires { next ≤ size }
    ensures { result ≡ missing_of value (size - next) }
{
    if 16384 < value {
        return 0;
    }
    value.saturating_sub(size - next)
}

// How many bytes more a front needs: 1 while its length number goes on, then what is missing of the
// table; 0 where nothing is, or where the length number is refused whatever follows.
pub fn wanted(front: &[u8]) -> usize
    ensures { result ≡ wanted_of front.now }
{
    match numbers::read(front, 0) {
        Ok(Reading { value, next }) => missing(front.len(), value as usize, next),
        Err(ReadError::Truncated) => 1,
        Err(ReadError::Malformed) => 0,
    }
}
