// Write: the numbers of a table to bytes.
ghost use Rattle.std.specs.Prelude.{◌≡◌, length};
ghost use Rattle.table.specs.Operations.{write_of};
ghost use Rattle.table.specs.Answers.{outcome, WriteSaid};

use crate::bytes::encode;
use judge::{byte_place, check_list};
use slots::clear_all;
use table::Refusal;

// Write with a work area of the right length, which is overwritten by the index and not cleared.
fn write_list(list: &[u16], out: &mut [u8], work: &mut [u64]) -> Result<usize, Refusal>
    requires { length work.old ≡ 8192 }
    ensures { WriteSaid list.now out.old result out.new }
{
    check_list(list, work)?;
    let n = byte_place(list, list.len());
    if out.len() < n {
        return Err(Refusal {
            number: 1,
            place: 0,
        });
    }
    encode(list, out);
    Ok(n)
}

// The table's numbers to bytes, the rest of the output kept; the answer is the byte count.
pub fn write(list: &[u16], out: &mut [u8], work: &mut [u64]) -> Result<usize, Refusal>
    ensures { outcome result out.new work.new
        ≡ write_of list.now out.old work.old }
{
    if work.len() != 8192 {
        return Err(Refusal {
            number: 1,
            place: 0,
        });
    }
    let answer = write_list(list, out, work);
    clear_all(work);
    answer
}
