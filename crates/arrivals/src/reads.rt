// The events of a read; and a read, by what it brought.
ghost use Rattle.std.specs.Prelude.{length};
ghost use Rattle.state.specs.Record.{monitor_of};
ghost use Rattle.input.specs.Arrival.{Arrives};
ghost use Rattle.tracing.specs.Tracing.{Tracing};
ghost use Rattle.saying.specs.Spoken.{said_of};
ghost use Rattle.course_spec.specs.Course.{Rooms, ReadOn, AfterArrived};

use course_spec::{Course, Told, Trouble};
use input::Arrived;
use saying::Said;
use state::State;
use std::ops::ControlFlow;
use turning::turn;

// The events of a read, each judged and said before the next.
fn take_read(
    list: &[u16],
    work: &[u64],
    state: State,
    said: Said,
    area0: &mut [u64],
    area1: &mut [u64],
    events: &[u8],
    store: &mut [u64],
    text: &mut [u8],
) -> Course
    requires tracing { Tracing list.now work.now (monitor_of state area0.old area1.old) }
    requires rooms { Rooms store.old text.old }
    ensures { ReadOn list.now work.now
        (monitor_of state area0.old area1.old) (said_of said)
        events.now result area0.new area1.new }
{
    let mut last = state;
    let mut spoken = said;
    for e in events {
        let before = spoken.count();
        let (next, newest) = turn(list, work, *e, last, before, area0, area1, store, text)?;
        last = next;
        spoken = newest;
    }
    ControlFlow::Continue((last, spoken))
}

// What one read brought into a piece: its events judged, or the end. The buffers stay parameters, as
// of `turn`.
pub fn after_arrived(
    list: &[u16],
    work: &[u64],
    state: State,
    said: Said,
    area0: &mut [u64],
    area1: &mut [u64],
    piece: &[u8],
    arrived: Arrived,
    store: &mut [u64],
    text: &mut [u8],
) -> Course
    requires tracing { Tracing list.now work.now (monitor_of state area0.old area1.old) }
    requires rooms { Rooms store.old text.old × Arrives (length piece.now) arrived }
    ensures { AfterArrived list.now work.now
        (monitor_of state area0.old area1.old) said
        piece.now arrived result area0.new area1.new }
{
    match arrived {
        // A nested pattern was tried: its facts did not close the goal.
        Ok(came) => match came {
            ControlFlow::Continue(n) => take_read(
                list,
                work,
                state,
                said,
                area0,
                area1,
                &piece[..n],
                store,
                text,
            ),
            ControlFlow::Break(end) => ControlFlow::Break(Ok(Told::Ended(end, said))),
        },
        Err(failure) => ControlFlow::Break(Err(Trouble::Unread(failure))),
    }
}
