// A book is judged, then written.
ghost use Rattle.std.specs.Prelude.{◌≡◌, Err};
ghost use Rattle.sheet_spec.specs.Sheet.{sheet_outcome as said, sheet_of};

use crate::line::LINE;
use crate::writing::write;
use lot_book::judge;
use sheet_spec::Sheet;
use table::Refusal;

// Nothing is written, and why.
fn refused(number: u8, place: usize) -> Sheet
    ensures { result ≡ Err (record { number = number; place = place }) }
{
    Err(Refusal { number, place })
}

// The sheet of a book, at the front of the output; what is after it is kept. A refusal writes nothing.
pub fn sheet(book: &[u8], out: &mut [u8]) -> Sheet
    ensures { said result out.new ≡ sheet_of book.now out.old }
{
    let judged = match judge(book) {
        Ok(judged) => judged,
        Err(bad) => return refused(14, bad.index),
    };
    let Some(sum) = judged.total else {
        return refused(15, 0);
    };
    if out.len() / LINE <= judged.count {
        return refused(1, 0);
    }
    Ok(write(book, out, sum))
}
