// An input: its front, and then pieces as they are read. What is said of it is its line, or that a
// read failed, which only crate `input` can tell. A monitor that goes on is neither.
//     run        its front, then all the rest
// `specs/Report.antt` has what each function promises.
ghost use Rattle.std.specs.Prelude.{◌≤◌, ◌<◌, ◌≡◌, false, length, take};
ghost use Rattle.state.specs.Record.{monitor_of};
ghost use Rattle.line_spec.specs.Opening.Front.{Lengths};
ghost use Rattle.line_spec.specs.Whole.{resume_of};
ghost use Rattle.resuming.specs.Answers.{resume_said};
ghost use Rattle.std.specs.declared.ops.ControlFlow.TheVariants.{Continue};
ghost use Rattle.line_spec.specs.Judged.{piece_end};
ghost use Rattle.input.specs.Reading.{Parts};
ghost use Rattle.line_monitor.specs.Report.{Says, Followed, FrontFed};

use format::Line;
use input::{Failure, Part};
use state::State;
use std::io::Stdin;
use std::ops::ControlFlow;

// Feeds a piece, so far as it was filled. A monitor that goes on has taken the whole of it.
fn turn(
    list: &[u16],
    state: State,
    area0: &mut [u64],
    area1: &mut [u64],
    piece: &[u8],
    part: Part,
    work: &mut [u64],
) -> ControlFlow<Line, State>
    requires { Parts (length piece.now) part }
    ensures { resume_said list.now result area0.new area1.new
        work.new
        ≡ piece_end part.last (resume_of list.now
        (monitor_of state area0.old area1.old)
        (take part.count piece.now) work.old) }
{
    let n = part.count();
    line::take_piece(list, state, area0, area1, &piece[..n], part.last(), work)
}

// Reads and feeds the pieces that follow, until the input ends or a line stands. Each turn that
// goes on takes a whole piece, and no more than 2^64-1 events are taken: so the loop ends.
fn follow(
    source: &mut Stdin,
    list: &[u16],
    state: State,
    area0: &mut [u64],
    area1: &mut [u64],
    piece: &mut [u8],
    work: &mut [u64],
) -> Result<Line, Failure>
    requires { 0 < length piece.old }
    ensures { Followed (length piece.old)
        (resume_said list.now (Continue state) area0.old area1.old
        work.old) result }
{
    let mut last = state;
    // how many pieces come is not known
    loop {
        let part = input::fill(source, piece)?;
        match turn(list, last, area0, area1, piece, part, work) {
            ControlFlow::Continue(next) => last = next,
            ControlFlow::Break(line) => return Ok(line),
        }
    }
}

// The events of the front, with which the input ended or did not, and then the pieces.
fn feed_front(
    source: &mut Stdin,
    list: &[u16],
    state: State,
    area0: &mut [u64],
    area1: &mut [u64],
    events: &[u8],
    last: bool,
    work: &mut [u64],
) -> Result<Line, Failure>
    ensures { FrontFed last (resume_of list.now
        (monitor_of state area0.old area1.old)
        events.now work.old) result }
{
    match line::take_piece(list, state, area0, area1, events, last, work) {
        ControlFlow::Continue(next) => {
            let mut piece = io::large_buffer();
            follow(source, list, next, area0, area1, &mut piece, work)
        }
        ControlFlow::Break(line) => Ok(line),
    }
}

// An input by its front, which is full where the input did not end with it.
fn open_front(
    source: &mut Stdin,
    front: &[u8],
    last: bool,
    list: &mut [u16],
    area0: &mut [u64],
    area1: &mut [u64],
    work: &mut [u64],
) -> Result<Line, Failure>
    requires lengths { Lengths list.old area0.old area1.old work.old }
    requires in_bounds { last ≡ false → 16387 ≤ length front.now }
    ensures { Says last front.now result }
{
    match line::open(front, list, area0, area1, work) {
        Ok(started) => feed_front(
            source,
            &list[..started.count],
            started.state,
            area0,
            area1,
            &front[started.next..],
            last,
            work,
        ),
        Err(refusal) => Ok(format::refused(refusal)),
    }
}

// What is said of an input whose front was filled so.
pub fn run(source: &mut Stdin, front: &[u8], part: Part) -> Result<Line, Failure>
    requires { (length front.now ≡ 16387) × Parts (length front.now) part }
    ensures { Says part.last (take part.count front.now) result }
{
    let mut list = [0u16; 16384];
    let mut area0 = [0u64; 4096];
    let mut area1 = [0u64; 4096];
    let mut work = [0u64; 8192];
    let n = part.count();
    open_front(
        source,
        &front[..n],
        part.last(),
        &mut list,
        &mut area0,
        &mut area1,
        &mut work,
    )
}
