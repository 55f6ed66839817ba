// The lines of a sheet, one after the other.
ghost use Rattle.std.specs.Prelude.{◌≡◌};
ghost use Rattle.sheet_spec.specs.Sheet.{Writable, given, sheet_of};

use crate::line::{LINE, lot_line, total_line};
use lot_book::lot_at;

// A line for each record of a good book, and the last line; how many bytes they are. Two positions move at their own
// speed: in the book by each record's bytes, in the output by a line.
pub fn write(book: &[u8], out: &mut [u8], sum: u64) -> usize
    requires { Writable book.now out.old sum }
    ensures { given result out.new ≡ sheet_of book.now out.old }
{
    let mut at = 0;
    let mut p = 0;
    // no index: the next place is what reading a record gives
    while at < book.len() {
        let Some((lot, next)) = lot_at(book, at) else {
            return p;
        };
        let e = p + LINE;
        lot_line(&mut out[p..e], lot);
        at = next;
        p = e;
    }
    let e = p + LINE;
    total_line(&mut out[p..e], sum);
    e
}
