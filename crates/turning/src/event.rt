// One event judged, and its line said; a refusal said.
ghost use Rattle.std.specs.Prelude.{◌≤◌, length};
ghost use Rattle.state.specs.Record.{monitor_of};
ghost use Rattle.tracing.specs.Tracing.{Tracing};
ghost use Rattle.course_spec.specs.Course.{Rooms, Turned, ToldRefusal};

use course_spec::{Course, Ending, Told, Trouble};
use saying::{Count, say};
use state::State;
use std::ops::ControlFlow;
use tracing::TraceLine;

// Says a refusal, which is the last line.
pub fn say_refusal(number: u8, place: u64, before: Count, text: &mut [u8]) -> Ending
    requires { 2816 ≤ length text.old }
    ensures { ToldRefusal number place before.lines result }
{
    let said = say(TraceLine::Refuses { number, place }, before, text)?;
    Ok(Told::Refused(said))
}

// Judges one event, and says its line. The buffers stay parameters: `turn` takes slices of any
// length, a struct of arrays would ask more.
pub fn turn(
    list: &[u16],
    work: &[u64],
    e: u8,
    state: State,
    before: Count,
    area0: &mut [u64],
    area1: &mut [u64],
    store: &mut [u64],
    text: &mut [u8],
) -> Course
    requires tracing { Tracing list.now work.now (monitor_of state area0.old area1.old) }
    requires rooms { Rooms store.old text.old }
    ensures { Turned list.now work.now
        (monitor_of state area0.old area1.old) before.lines e
        result area0.new area1.new }
{
    let traced = match tracing::trace_event(list, work, e, state, area0, area1, store) {
        Ok(traced) => traced,
        Err(refused) => {
            return ControlFlow::Break(say_refusal(refused.number, refused.place, before, text));
        }
    };
    let line = TraceLine::Takes {
        event: e,
        state: traced.state,
        permitted: traced.permitted,
    };
    match say(line, before, text) {
        Ok(said) => ControlFlow::Continue((traced.state, said)),
        Err(unsaid) => ControlFlow::Break(Err(Trouble::Unwritten(unsaid))),
    }
}
