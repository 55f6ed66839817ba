// Feed in wash hours for C. What a call returns and leaves is `timed_call` of crate `wash_words`,
// `specs/Call.antt`.
ghost use Rattle.std.specs.Prelude.{◌≡◌};
ghost use Rattle.words_spec.specs.Calls.{monitor_said as said};
ghost use Rattle.wash_words.specs.Call.{timed_call};

use wash_words::{load_timed, tell_timed};

// Feed in wash hours: the record's successor after events, each with its minute.
#[unsafe(no_mangle)]
pub extern "C" fn cspe_timed_feed(
    everyday: &[u16],
    wash: &[u16],
    windows: &[u16],
    record: &mut [u64],
    area0: &mut [u64],
    area1: &mut [u64],
    events: &[u8],
    minutes: &[u64],
    work: &mut [u64],
    place: &mut u64,
) -> u32
    ensures { said result place.new «record».new area0.new area1.new
        work.new
        ≡ timed_call everyday.now wash.now windows.now
        «record».old area0.old area1.old events.now
        minutes.now work.old }
{
    if record.len() != 7 {
        *place = 0;
        return 1;
    }
    let state = load_timed(record);
    let answer = monitor::timed_feed(
        everyday, wash, windows, state, area0, area1, events, minutes, work,
    );
    tell_timed(answer, record, place)
}
