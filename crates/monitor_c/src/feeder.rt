// Feed for C. What a call returns and leaves is `feed_call` of crate `words_spec`.
ghost use Rattle.std.specs.Prelude.{◌≡◌};
ghost use Rattle.words_spec.specs.Calls.{monitor_said as said, feed_call};

use words::{load, tell};

// Feed: the record's successor after events.
#[unsafe(no_mangle)]
pub extern "C" fn cspe_feed(
    list: &[u16],
    record: &mut [u64],
    area0: &mut [u64],
    area1: &mut [u64],
    events: &[u8],
    work: &mut [u64],
    place: &mut u64,
) -> u32
    ensures { said result place.new «record».new area0.new area1.new
        work.new
        ≡ feed_call list.now «record».old area0.old
        area1.old events.now work.old }
{
    if record.len() != 5 {
        *place = 0;
        return 1;
    }
    let answer = monitor::feed(list, load(record), area0, area1, events, work);
    tell(answer, record, place)
}
