// What a lent buffer is made of: words, numbers of a list or bytes.
//     lend, fill             junk before a call: no element is 0, and neighbours differ
//     is_kept                whether the junk still stands
//     digest, digest_more    one number for all elements: from 1, each half of a word makes of the digest d
//                            (d * 16777619 + half) mod 4294967291, a word's lower half first; a number and a byte
//                            are a half by themselves
ghost use Rattle.std.specs.Prelude.{◌≡◌, ◌<◌, OnOk, vec_len};

use std::alloc::AllocError;

pub trait Element: Copy + PartialEq + Drop {
    // What stands at a place before a call.
    fn junk(place: usize) -> Self;

    // A digest with this element more.
    fn digest_after(self, d: u64) -> u64;
}

// The lower half of a word.
fn lower(w: u64) -> u64
    ensures { result < 4294967296 }
{
    w & 4294967295
}

fn half_more(d: u64, half: u64) -> u64 {
    (d % 4294967291 * 16777619 + lower(half)) % 4294967291
}

impl Element for u64 {
    fn junk(place: usize) -> u64 {
        u64::MAX - place as u64
    }

    fn digest_after(self, d: u64) -> u64 {
        half_more(half_more(d, self), self >> 32)
    }
}

impl Element for u16 {
    fn junk(place: usize) -> u16 {
        (65535 - place % 16411) as u16
    }

    fn digest_after(self, d: u64) -> u64 {
        half_more(d, u64::from(self))
    }
}

impl Element for u8 {
    fn junk(place: usize) -> u8 {
        (255 - place % 251) as u8
    }

    fn digest_after(self, d: u64) -> u64 {
        half_more(d, u64::from(self))
    }
}

pub fn fill<T: Element>(area: &mut [T]) {
    for (i, x) in area.iter_mut().enumerate() {
        *x = T::junk(i);
    }
}

// A buffer of so many elements, which keeps its memory from call to call.
pub fn lend<T: Element>(buffer: &mut Vec<T>, length: usize) -> Result<(), AllocError>
    ensures { OnOk result (vec_len buffer.new ≡ length) }
{
    buffer.resize(length, T::junk(0))?;
    fill(buffer);
    Ok(())
}

pub fn is_kept<T: Element>(area: &[T]) -> bool {
    area.iter().enumerate().all(|(i, x)| *x == T::junk(i))
}

pub fn digest<T: Element>(area: &[T]) -> u64 {
    digest_more(1, area)
}

// The digest d, and then each element of an area.
pub fn digest_more<T: Element>(d: u64, area: &[T]) -> u64 {
    area.iter().fold(d, |d, x| x.digest_after(d))
}
