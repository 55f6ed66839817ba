// The head and the table of an input, read into a lent list.
//     lent_fit       whether lent lengths are the program's
//     read_table     the table's numbers, or a refusal
ghost use Rattle.std.specs.Prelude.{◌≡◌};
ghost use Rattle.line_spec.specs.Opening.{lent_fit};
ghost use Rattle.table_reading.specs.TableRead.{TableSaid};

use crate::answer::TableRead;
use format::head;
use table::Refusal;

// Whether lent lengths are the program's: of the list, the areas ("256 slots") and the work area.
fn lent_fit(list: usize, area0: usize, area1: usize, work: usize) -> bool
    ensures { result ≡ lent_fit list area0 area1 work }
{
    if list != 16384 {
        return false;
    }
    if area0 != 4096 {
        return false;
    }
    if area1 != 4096 {
        return false;
    }
    work == 8192
}

// Reads the table of an input, of which events may be missing. Lent lengths are tried first; the
// areas are only measured.
pub fn read_table(
    input: &[u8],
    list: &mut [u16],
    area0: &[u64],
    area1: &[u64],
    work: &mut [u64],
) -> Result<TableRead, Refusal>
    ensures { TableSaid input.now list.old area0.now
        area1.now work.old result list.new work.new }
{
    if !lent_fit(list.len(), area0.len(), area1.len(), work.len()) {
        return Err(Refusal {
            number: 1,
            place: 0,
        });
    }
    let bytes = head(input)?;
    let count = codec::read(&input[bytes.start..bytes.end], list, work)?;
    Ok(TableRead {
        count,
        next: bytes.end,
    })
}
