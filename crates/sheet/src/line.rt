// The lines of a sheet: each function here fills a part that is lent to it.
ghost use Rattle.std.specs.Prelude.{◌≡◌, ◌≤◌, ◌<◌, length};
ghost use Rattle.sheet_spec.specs.Line.{spaces, Room, lot_line, total_line};
ghost use Rattle.sheet_spec.specs.Line.{right as inRight};
ghost use Rattle.sheet_spec.specs.Line.{left as inLeft};
ghost use Rattle.sheet_spec.specs.Line.{verdict as verdictWord};

use lot_book::Lot;
use std::ops::Range;

// "a line of 48 characters and line feed".
pub const LINE: usize = 49;

// "lot in columns 1 to 10, taken 12 to 31, verdict word 33 to 39, place 41 to 48".
const LOT: Range<usize> = 0..10;

const TAKEN: Range<usize> = 11..31;

const VERDICT: Range<usize> = 32..39;

const PLACE: Range<usize> = 40..48;

// A number at the right end of a part that is all spaces.
fn right(part: &mut [u8], n: u64)
    requires { Room part.old n }
    ensures { part.new ≡ inRight (length part.old) n }
{
    let mut rest = n;
    for k in (0..part.len()).rev() {
        part[k] = b'0' + (rest % 10) as u8;
        rest /= 10;
        if rest == 0 {
            return;
        }
    }
}

// The verdict word of a mark, in a part that is all spaces.
fn verdict(part: &mut [u8], mark: u64)
    requires { part.old ≡ spaces 7 }
    ensures { part.new ≡ inLeft 7 (verdictWord mark) }
{
    if mark == 0 {
        part.copy_from_slice(b"running");
    } else {
        part[..6].copy_from_slice(b"failed");
    }
}

// The line of a record.
pub fn lot_line(line: &mut [u8], lot: Lot)
    requires line_len { length line.old ≡ 49 }
    requires number_bound { (lot.number < 10000000000) × (lot.place < 100000000) }
    ensures { line.new ≡ lot_line lot }
{
    line.fill(b' ');
    right(&mut line[LOT], lot.number);
    right(&mut line[TAKEN], lot.taken);
    verdict(&mut line[VERDICT], lot.mark);
    right(&mut line[PLACE], lot.place);
    line[LINE - 1] = b'\n';
}

// The last line, with the sum of what the records took.
pub fn total_line(line: &mut [u8], sum: u64)
    requires { length line.old ≡ 49 }
    ensures { line.new ≡ total_line sum }
{
    line.fill(b' ');
    line[..5].copy_from_slice(b"TOTAL");
    right(&mut line[TAKEN], sum);
    line[LINE - 1] = b'\n';
}
