// The front of an input: its table read, and a monitor opened.
ghost use Rattle.std.specs.Prelude.{◌≡◌, length};
ghost use Rattle.line_spec.specs.Line.{fresh_on};
ghost use Rattle.line_spec.specs.Opening.{started_on, open_input_of as open_of};
ghost use Rattle.line.specs.Answers.{open_said};

use crate::answer::Started;
use state::Declined;
use table::Refusal;
use table_reading::read_table;

// Opens a monitor on a list of so many numbers, with no event; its events begin at `next`.
fn open_list(
    list: &[u16],
    next: usize,
    area0: &mut [u64],
    area1: &mut [u64],
    work: &mut [u64],
) -> Result<Started, Refusal>
    ensures { open_said result list.now area0.new area1.new
        work.new
        ≡ started_on (length list.now) next list.now
        (fresh_on list.now area0.old area1.old
        work.old) }
{
    match opening::open(list, area0, area1, &[], work) {
        Ok(state) => Ok(Started {
            state,
            count: list.len(),
            next,
        }),
        Err(Declined::Refused(refusal)) => Err(refusal),
        Err(Declined::Stopped(refusal, _)) => Err(refusal),
    }
}

// Reads the head and the table of an input, of which the rest may be missing after its first
// 16,387 bytes, and opens the monitor. Lent lengths are tried first.
pub fn open(
    input: &[u8],
    list: &mut [u16],
    area0: &mut [u64],
    area1: &mut [u64],
    work: &mut [u64],
) -> Result<Started, Refusal>
    ensures { open_said result list.new area0.new area1.new
        work.new
        ≡ open_of input.now list.old area0.old
        area1.old work.old }
{
    match read_table(input, list, area0, area1, work) {
        Ok(read) => open_list(&list[..read.count], read.next, area0, area1, work),
        Err(refusal) => Err(refusal),
    }
}
