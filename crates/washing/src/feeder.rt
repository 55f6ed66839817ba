// Feed in wash hours: what it comes to is `timed_of` of crate wash_spec.
ghost use Rattle.std.specs.Prelude.{◌≡◌, length};
ghost use Rattle.wash_spec.specs.Feed.{timed_of};
ghost use Rattle.wash_state.specs.Answers.{timed_monitor_of, timed_outcome};
ghost use Rattle.wash_start.specs.Standing.{TimedReady};
ghost use Rattle.washing.specs.Washing.{TimedEndedBy};

use feeding::STORE_WORDS;
use state::{Declined, clear_all};
use table::Refusal;
use wash_entering::enter_timed;
use wash_event::take_timed;
use wash_state::{TimedAnswer, TimedState};

// Takes the events from the first, each with its minute, until one is refused.
fn take_all_timed(
    everyday: &[u16],
    wash: &[u16],
    windows: &[u16],
    state: TimedState,
    area0: &mut [u64],
    area1: &mut [u64],
    events: &[u8],
    minutes: &[u64],
    work: &mut [u64],
) -> TimedAnswer
    requires timed_ready { TimedReady everyday.now wash.now windows.now state
        area0.old area1.old work.old }
    requires events_len { length events.now ≡ length minutes.now }
    ensures { TimedEndedBy everyday.now wash.now windows.now
        (timed_monitor_of state area0.old area1.old)
        events.now minutes.now result area0.new area1.new }
{
    let mut store = [0u64; STORE_WORDS];
    let mut reached = state;
    for i in 0..events.len() {
        let minute = minutes[i];
        match take_timed(
            everyday, wash, windows, reached, events[i], minute, area0, area1, work, &mut store,
        ) {
            Ok(next) => reached = TimedState::Started(next, minute),
            Err(number) => {
                return Err(Declined::Stopped(Refusal { number, place: i }, reached));
            }
        }
    }
    Ok(reached)
}

// Takes events, each with its absolute minute, on the everyday table or, in the windows of a
// timetable, on the one for wash hours: what stands after them, or a refusal.
pub fn timed_feed(
    everyday: &[u16],
    wash: &[u16],
    windows: &[u16],
    state: TimedState,
    area0: &mut [u64],
    area1: &mut [u64],
    events: &[u8],
    minutes: &[u64],
    work: &mut [u64],
) -> TimedAnswer
    ensures { timed_outcome result area0.new area1.new work.new
        ≡ timed_of everyday.now wash.now windows.now
        (timed_monitor_of state area0.old area1.old)
        events.now minutes.now work.old }
{
    match enter_timed(
        everyday,
        wash,
        windows,
        state,
        area0,
        area1,
        events.len(),
        minutes.len(),
        work,
    ) {
        Ok(()) => {
            let answer = take_all_timed(
                everyday, wash, windows, state, area0, area1, events, minutes, work,
            );
            clear_all(work);
            answer
        }
        Err(refusal) => Err(Declined::Refused(refusal)),
    }
}
