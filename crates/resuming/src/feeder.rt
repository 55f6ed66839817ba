// A started monitor piece by piece, and its line at the input's end.
ghost use Rattle.std.specs.Prelude.{◌≡◌};
ghost use Rattle.state.specs.Record.{monitor_of};
ghost use Rattle.line_spec.specs.Whole.{resume_of};
ghost use Rattle.line_spec.specs.Judged.{piece_end};
ghost use Rattle.resuming.specs.Answers.{resume_said, AfterPiece};

use format::{Line, conclude, refused};
use state::{Declined, State};
use std::ops::ControlFlow;

// One piece of events more: the monitor goes on, or a line stands. A refused event is placed from
// the input's first.
pub fn resume(
    list: &[u16],
    state: State,
    area0: &mut [u64],
    area1: &mut [u64],
    events: &[u8],
    work: &mut [u64],
) -> ControlFlow<Line, State>
    ensures { resume_said list.now result area0.new area1.new
        work.new
        ≡ resume_of list.now
        (monitor_of state area0.old area1.old)
        events.now work.old }
{
    match feeding::feed(list, state, area0, area1, events, work) {
        Ok(next) => ControlFlow::Continue(next),
        Err(Declined::Refused(refusal)) => ControlFlow::Break(refused(refusal)),
        Err(Declined::Stopped(refusal, last)) => ControlFlow::Break(Line::Refused {
            number: refusal.number,
            place: last.taken,
        }),
    }
}

// What comes after a piece: where it was the input's last, its line stands.
pub fn after_piece(course: ControlFlow<Line, State>, last: bool) -> ControlFlow<Line, State>
    ensures { AfterPiece course last result }
{
    let state = course?;
    if last {
        return ControlFlow::Break(conclude(state));
    }
    ControlFlow::Continue(state)
}

// One piece of events more, with which the input ended or did not.
pub fn take_piece(
    list: &[u16],
    state: State,
    area0: &mut [u64],
    area1: &mut [u64],
    events: &[u8],
    last: bool,
    work: &mut [u64],
) -> ControlFlow<Line, State>
    ensures { resume_said list.now result area0.new area1.new
        work.new
        ≡ piece_end last (resume_of list.now
        (monitor_of state area0.old area1.old)
        events.now work.old) }
{
    after_piece(resume(list, state, area0, area1, events, work), last)
}
