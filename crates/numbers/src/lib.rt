// Numbers of the table format: seven bits to a byte, lowest group first, fewest bytes
// (01, "Numbers and table"). The definitions are in `specs/Number.antt` and `specs/Position.antt`.
//     read, Reading, ReadError    the number at a position, or why there is none
//     write                       a number stored at a position
//     byte_count                  how many bytes a number takes
// No function has a `requires`: any position may be asked for.
#![tactic(auto)]

ghost use Rattle.std.specs.Prelude.{◌≡◌, ◌≤◌, length, MatchResult};
ghost use Rattle.numbers.specs.declared.ReadError.TheVariants.{Truncated};
ghost use Rattle.numbers.specs.Number.{Sized};
ghost use Rattle.numbers.specs.Position.{ByteAt, read_at, Stores};

// A number that was read and the position after it.
#[derive(Clone, Copy)]
pub struct Reading {
    pub value: u16,
    pub next: usize,
}

// Why no number was read: the bytes end within it, or it is not so written.
#[derive(Clone, Copy, PartialEq, Eq)]
pub enum ReadError {
    Truncated,
    Malformed,
}

// The byte at a position.
fn byte_at(s: &[u8], at: usize) -> Result<u16, ReadError>
    ensures { MatchResult result (λ b. ByteAt s.now at b)
        (λ e. (e ≡ Truncated) × (length s.now ≤ at)) }
{
    match s.get(at) {
        Some(&b) => Ok(u16::from(b)),
        None => Err(ReadError::Truncated),
    }
}

// The number at a position. Past the end of s it is truncated.
pub fn read(s: &[u8], at: usize) -> Result<Reading, ReadError>
    ensures { result ≡ read_at s.now at }
{
    let a = byte_at(s, at)?;
    let p = at + 1;
    if a < 128 {
        return Ok(Reading { value: a, next: p });
    }
    let b = byte_at(s, p)?;
    let q = p + 1;
    if b == 0 {
        return Err(ReadError::Malformed);
    }
    if b < 128 {
        return Ok(Reading {
            value: (a - 128) + b * 128,
            next: q,
        });
    }
    let c = byte_at(s, q)?;
    if c == 0 {
        return Err(ReadError::Malformed);
    }
    if c <= 3 {
        Ok(Reading {
            value: (a - 128) + (b - 128) * 128 + c * 16384,
            next: q + 1,
        })
    } else {
        Err(ReadError::Malformed)
    }
}

// Stores the bytes of v at a position, where there is room for all of them, and answers the position
// after them; all else stays, and everything where there is no room.
pub fn write(out: &mut [u8], at: usize, v: u16) -> Option<usize>
    ensures { Stores out.old at v result out.new }
{
    if out.len() <= at {
        return None;
    }
    if v < 128 {
        out[at] = v as u8;
        return Some(at + 1);
    }
    let p = at + 1;
    if out.len() <= p {
        return None;
    }
    if v < 16384 {
        out[at] = (v % 128 + 128) as u8;
        out[p] = (v / 128) as u8;
        return Some(p + 1);
    }
    let q = p + 1;
    if out.len() <= q {
        return None;
    }
    out[at] = (v % 128 + 128) as u8;
    out[p] = (v / 128 % 128 + 128) as u8;
    out[q] = (v / 16384) as u8;
    Some(q + 1)
}

// How many bytes v is written in: 1, 2 or 3.
pub fn byte_count(v: u16) -> usize
    ensures { Sized v result }
{
    if 16384 <= v {
        return 3;
    }
    if 128 <= v {
        return 2;
    }
    1
}
