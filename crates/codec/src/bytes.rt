// Bytes to numbers and numbers to bytes.
ghost use Rattle.std.specs.Prelude.{◌≡◌, ◌+◌, ◌≤◌, length, take, drop, ◌++◌};
ghost use Rattle.numbers.specs.Number.{list_bytes};
ghost use Rattle.table_index.specs.Judging.{Decoding};

use numbers::{ReadError, Reading};

// How many numbers were read, the place after them, and why no number was read there.
#[derive(Clone, Copy)]
pub struct Decoded {
    pub count: usize,
    pub next: usize,
    pub stop: ReadError,
}

// The numbers written in the bytes, up to the first that is not whole or not well written.
pub fn decode(bytes: &[u8], out: &mut [u16]) -> Decoded
    requires { length bytes.now ≤ length out.old }
    ensures numbers { Decoding bytes.now (take result.count out.new)
        result.next result.stop }
    ensures few { result.count ≤ length bytes.now }
{
    let mut count = 0;
    let mut next = 0;
    // no index: the next place is what reading gives
    loop {
        match numbers::read(bytes, next) {
            Ok(Reading { value, next: q }) => {
                out[count] = value;
                count += 1;
                next = q;
            }
            Err(stop) => {
                return Decoded { count, next, stop };
            }
        }
    }
}

// The bytes of a list, at the front of an output with room for them.
pub fn encode(list: &[u16], out: &mut [u8])
    requires { length (list_bytes list.now) ≤ length out.old }
    ensures { out.new
        ≡ list_bytes list.now
        ++ drop (length (list_bytes list.now)) out.old }
{
    let mut p = 0;
    for i in 0..list.len() {
        let Some(q) = numbers::write(out, p, list[i]) else {
            return;
        };
        p = q;
    }
}
