// An input from its front on: a monitor opened, the line at the start said, and then read by read.
ghost use Rattle.std.specs.Prelude.{◌≤◌, ◌<◌, length};
ghost use Rattle.table_index.specs.Index.{table_in};
ghost use Rattle.state.specs.Record.{monitor_of};
ghost use Rattle.line_spec.specs.Opening.Front.{Lengths};
ghost use Rattle.tracing.specs.Answers.{trace_line_said};
ghost use Rattle.tracing.specs.declared.answer.TraceLine.TheVariants.{Starts};
ghost use Rattle.tracing.specs.Tracing.{Tracing};
ghost use Rattle.trace_front.specs.Wanted.{Fronts};
ghost use Rattle.saying.specs.Spoken.{said_of, first_said};
ghost use Rattle.course_spec.specs.Course.{Rooms, Followed, Says};

use arrivals::after_arrived;
use course_spec::Ending;
use feeding::STORE_WORDS;
use saying::{Count, Said, say};
use state::{EventBits, State};
use std::io::{Stdin, Stdout};
use std::ops::ControlFlow;
use tracing::TraceLine;
use turning::say_refusal;

// Reads what arrives, and judges it, until the input ends or a refusal is said. Each read brings an
// event at least, and no more than 2^64-1 events are taken: so the loop ends. The buffers stay
// parameters, as of `turn`.
fn follow(
    source: &mut Stdin,
    list: &[u16],
    work: &[u64],
    state: State,
    said: Said,
    area0: &mut [u64],
    area1: &mut [u64],
    piece: &mut [u8],
    store: &mut [u64],
    text: &mut [u8],
) -> Ending
    requires tracing { Tracing list.now work.now (monitor_of state area0.old area1.old) }
    requires rooms { Rooms store.old text.old × (0 < length piece.old) }
    ensures { Followed (table_in list.now)
        (monitor_of state area0.old area1.old) (said_of said) result }
{
    let mut last = state;
    let mut spoken = said;
    // how many reads come is not known
    loop {
        let arrived = input::arrive(source, piece);
        match after_arrived(
            list, work, last, spoken, area0, area1, piece, arrived, store, text,
        ) {
            ControlFlow::Continue((next, newest)) => {
                last = next;
                spoken = newest;
            }
            ControlFlow::Break(told) => return told,
        }
    }
}

// The line at the start, and then the events.
#[tactic(auto, unfolding(course_spec::specs::Course::Followed))]
fn begin(
    source: &mut Stdin,
    out: Stdout,
    list: &[u16],
    work: &[u64],
    state: State,
    permitted: EventBits,
    area0: &mut [u64],
    area1: &mut [u64],
    text: &mut [u8],
) -> Ending
    requires tracing { Tracing list.now work.now (monitor_of state area0.old area1.old) }
    requires in_bounds { 2816 ≤ length text.old }
    ensures { Followed (table_in list.now)
        (monitor_of state area0.old area1.old)
        (first_said (trace_line_said (Starts state permitted))) result }
{
    let said = say(
        TraceLine::Starts { state, permitted },
        Count::none(out),
        text,
    )?;
    let mut store = [0u64; STORE_WORDS];
    let mut piece = [0u8; 4096];
    follow(
        source, list, work, state, said, area0, area1, &mut piece, &mut store, text,
    )
}

// An input by its front, in which no event stands.
fn open_front(
    source: &mut Stdin,
    out: Stdout,
    front: &[u8],
    list: &mut [u16],
    area0: &mut [u64],
    area1: &mut [u64],
    work: &mut [u64],
) -> Ending
    requires fronts { Fronts front.now }
    requires lengths { Lengths list.old area0.old area1.old work.old }
    ensures { Says front.now result }
{
    let mut text = [0u8; 4096];
    match trace::open_trace(front, list, area0, area1, work) {
        Ok(started) => begin(
            source,
            out,
            &list[..started.count],
            work,
            started.state,
            started.permitted,
            area0,
            area1,
            &mut text,
        ),
        Err(refusal) => {
            say_refusal(
                refusal.number,
                refusal.place as u64,
                Count::none(out),
                &mut text,
            )
        }
    }
}

// What is told of an input by its front, in which no event stands.
pub fn run(source: &mut Stdin, out: Stdout, front: &[u8]) -> Ending
    requires { Fronts front.now }
    ensures { Says front.now result }
{
    let mut list = [0u16; 16384];
    let mut area0 = [0u64; 4096];
    let mut area1 = [0u64; 4096];
    let mut work = [0u64; 8192];
    open_front(
        source, out, front, &mut list, &mut area0, &mut area1, &mut work,
    )
}
