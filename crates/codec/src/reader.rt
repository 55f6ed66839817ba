// Read: bytes to the numbers of a table.
ghost use Rattle.std.specs.Prelude.{◌≡◌, length};
ghost use Rattle.table_index.specs.BytesJudged.{PlaceInside, BytesDeclined, BytesJudged};
ghost use Rattle.table.specs.Operations.{read_of};
ghost use Rattle.table.specs.Answers.{outcome, ReadSaid};

use crate::bytes::{Decoded, decode};
use crate::clear::clear_numbers;
use judge::byte_place;
use numbers::ReadError;
use slots::clear_all;
use table::Refusal;

// A refusal of the decoded numbers as one of the bytes.
fn refused_bytes(list: &[u16], size: usize, d: Decoded, r: Refusal) -> Refusal
    requires { PlaceInside list.now r.number r.place }
    ensures { BytesDeclined list.now d.next size d.stop r result }
{
    let number = r.number;
    let place = r.place;
    let next = d.next;
    match number {
        3 => {
            match d.stop {
                ReadError::Malformed => Refusal {
                    number: 4,
                    place: next,
                },
                ReadError::Truncated => Refusal {
                    number: 3,
                    place: size,
                },
            }
        }
        5 | 6 => Refusal {
            number,
            place: byte_place(list, place),
        },
        7 => {
            if next < size {
                Refusal {
                    number: 6,
                    place: next,
                }
            } else {
                Refusal {
                    number,
                    place: byte_place(list, place),
                }
            }
        }
        _ => {
            if next < size {
                Refusal {
                    number: 6,
                    place: next,
                }
            } else {
                r
            }
        }
    }
}

// The judgement of bytes from the numbers that they were decoded to.
fn judge_decoded(list: &[u16], work: &mut [u64], size: usize, d: Decoded) -> Result<(), Refusal>
    requires { length work.old ≡ 8192 }
    ensures { BytesJudged list.now d.next size d.stop result }
{
    let next = d.next;
    match judge::judge(list, work) {
        Ok(()) => {
            if next < size {
                return Err(Refusal {
                    number: 6,
                    place: next,
                });
            }
            Ok(())
        }
        Err(r) => Err(refused_bytes(list, size, d, r)),
    }
}

// Read with lent lengths that are right. The work area is overwritten by the index and not cleared.
fn read_bytes(bytes: &[u8], out: &mut [u16], work: &mut [u64]) -> Result<usize, Refusal>
    requires { (length out.old ≡ 16384) × (length work.old ≡ 8192) }
    ensures { ReadSaid bytes.now result out.new }
{
    let size = bytes.len();
    if 16384 < size {
        clear_numbers(out, 0);
        return Err(Refusal {
            number: 2,
            place: 0,
        });
    }
    let d = decode(bytes, out);
    let count = d.count;
    clear_numbers(out, count);
    match judge_decoded(&out[..count], work, size, d) {
        Ok(()) => Ok(count),
        Err(r) => {
            clear_numbers(out, 0);
            Err(r)
        }
    }
}

// Bytes to the table's numbers in the output, zeros after; the answer is their count.
pub fn read(bytes: &[u8], out: &mut [u16], work: &mut [u64]) -> Result<usize, Refusal>
    ensures { outcome result out.new work.new
        ≡ read_of bytes.now out.old work.old }
{
    if out.len() != 16384 {
        return Err(Refusal {
            number: 1,
            place: 0,
        });
    }
    if work.len() != 8192 {
        return Err(Refusal {
            number: 1,
            place: 0,
        });
    }
    let answer = read_bytes(bytes, out, work);
    clear_all(work);
    answer
}
