// The front of an input: its table read and judged, and a monitor opened on it. The table's index
// stays in the work area.
ghost use Rattle.std.specs.Prelude.{◌≡◌, length};
ghost use Rattle.trace.specs.Opening.{ListOpened, TraceOpened};

use crate::answer::Started;
use entering::enter;
use offering::offered;
use opening::resolve_last;
use slots::Exceeded;
use state::{IndexedTable, State};
use table::Refusal;
use table_reading::read_table;

// Settles a list whose index stands in the work area; its events begin at `next`.
fn settle(
    table: &IndexedTable<'_>,
    next: usize,
    area0: &mut [u64],
    area1: &mut [u64],
) -> Result<Started, Refusal>
    requires area0_len { (length area0.old ≡ 4096) × (length area1.old ≡ 4096) }
    ensures { ListOpened table.now.list.now next
        result area0.new area1.new table.now.work.now }
{
    match resolve_last(table, area0, area1) {
        Ok(count) => {
            let state = State::fresh(count as u64);
            let permitted = offered(table, state, area0, area1);
            Ok(Started {
                state,
                permitted,
                count: table.list.len(),
                next,
            })
        }
        Err(Exceeded) => Err(Refusal {
            number: 13,
            place: 0,
        }),
    }
}

// Judges a list and settles it.
fn open_list(
    list: &[u16],
    next: usize,
    area0: &mut [u64],
    area1: &mut [u64],
    work: &mut [u64],
) -> Result<Started, Refusal>
    requires area0_len { (length area0.old ≡ 4096) × (length area1.old ≡ 4096) }
    requires work_len { length work.old ≡ 8192 }
    ensures { ListOpened list.now next
        result area0.new area1.new work.new }
{
    match enter(list, true, work) {
        Ok(()) => {
            let table = IndexedTable { list, work };
            settle(&table, next, area0, area1)
        }
        Err(refusal) => Err(refusal),
    }
}

// Reads the head and the table of an input, of which events may be missing, and opens the monitor.
// Lent lengths are tried first.
pub fn open_trace(
    input: &[u8],
    list: &mut [u16],
    area0: &mut [u64],
    area1: &mut [u64],
    work: &mut [u64],
) -> Result<Started, Refusal>
    ensures { TraceOpened input.now list.old area0.old
        area1.old work.old
        result list.new area0.new area1.new work.new }
{
    match read_table(input, list, area0, area1, work) {
        Ok(read) => open_list(&list[..read.count], read.next, area0, area1, work),
        Err(refusal) => Err(refusal),
    }
}
