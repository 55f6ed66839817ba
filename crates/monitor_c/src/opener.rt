// Open for C. What a call returns and leaves is `open_call` of crate `words_spec`.
ghost use Rattle.std.specs.Prelude.{◌≡◌};
ghost use Rattle.words_spec.specs.Calls.{open_said, open_call};

use words::{has_record, tell};

// Open: a monitor of a table, after events. Whether there is a record goes into opened.
#[unsafe(no_mangle)]
pub extern "C" fn cspe_open(
    list: &[u16],
    record: &mut [u64],
    area0: &mut [u64],
    area1: &mut [u64],
    events: &[u8],
    work: &mut [u64],
    place: &mut u64,
    opened: &mut u64,
) -> u32
    ensures { open_said result place.new opened.new «record».new
        area0.new area1.new work.new
        ≡ open_call list.now «record».old area0.old
        area1.old events.now work.old }
{
    if record.len() != 5 {
        *place = 0;
        *opened = 0;
        return 1;
    }
    let answer = monitor::open(list, area0, area1, events, work);
    *opened = has_record(answer);
    tell(answer, record, place)
}
