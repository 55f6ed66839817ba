// Try for C. What a call returns and leaves is `try_call` of crate `words_spec`.
ghost use Rattle.std.specs.Prelude.{◌≡◌};
ghost use Rattle.words_spec.specs.Calls.{monitor_said as said, try_call};

use words::{load, tell};

// Try: what Feed would make of events, in a further record and further areas.
#[unsafe(no_mangle)]
pub extern "C" fn cspe_try(
    list: &[u16],
    record: &[u64],
    area0: &[u64],
    area1: &[u64],
    further_record: &mut [u64],
    further0: &mut [u64],
    further1: &mut [u64],
    events: &[u8],
    work: &mut [u64],
    place: &mut u64,
) -> u32
    ensures { said result place.new further_record.new further0.new
        further1.new work.new
        ≡ try_call list.now «record».now area0.now
        area1.now further_record.old further0.old
        further1.old events.now work.old }
{
    if record.len() != 5 {
        *place = 0;
        return 1;
    }
    if further_record.len() != 5 {
        *place = 0;
        return 1;
    }
    let state = load(record);
    let answer = monitor::try_feed(list, state, area0, area1, further0, further1, events, work);
    tell(answer, further_record, place)
}
