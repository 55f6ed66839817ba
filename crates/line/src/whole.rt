// The line of a whole input.
ghost use Rattle.std.specs.Prelude.{◌≡◌};
ghost use Rattle.state.specs.Record.{monitor_of};
ghost use Rattle.line_spec.specs.Whole.{finish_of, whole_of};
ghost use Rattle.line.specs.Answers.{whole_said};

use crate::opener::open;
use format::{Line, conclude, refused};
use resuming::resume;
use state::State;
use std::ops::ControlFlow;

// The line of a started monitor on all of its events.
fn finish(
    list: &[u16],
    state: State,
    area0: &mut [u64],
    area1: &mut [u64],
    events: &[u8],
    work: &mut [u64],
) -> Line
    ensures { whole_said result list.now area0.new area1.new
        work.new
        ≡ finish_of list.now
        (monitor_of state area0.old area1.old)
        events.now work.old }
{
    match resume(list, state, area0, area1, events, work) {
        ControlFlow::Continue(last) => conclude(last),
        ControlFlow::Break(line) => line,
    }
}

// The line of a whole input; a lent length that is not the program's is refusal 1.
pub fn line(
    input: &[u8],
    list: &mut [u16],
    area0: &mut [u64],
    area1: &mut [u64],
    work: &mut [u64],
) -> Line
    ensures { whole_said result list.new area0.new area1.new
        work.new
        ≡ whole_of input.now list.old area0.old
        area1.old work.old }
{
    match open(input, list, area0, area1, work) {
        Ok(started) => finish(
            &list[..started.count],
            started.state,
            area0,
            area1,
            &input[started.next..],
            work,
        ),
        Err(refusal) => refused(refusal),
    }
}
