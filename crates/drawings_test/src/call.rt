// The calls, with the lines that they come to as the file has them: KIND A B.
//     whole       the line of an input
//     pieces      the same, with the events in pieces
//     open        what opens an input, before any event
//     by_parts    by Read and Open themselves
use line::{Line, Started};
use monitor::{Declined, State};
use std::ops::ControlFlow;
use table::Refusal;

// KIND is 0 for running, 1 for failed, 2 for refused.
pub type StoredLine = [u64; 3];

fn numbers_of(line: Line) -> StoredLine {
    match line {
        Line::Running { taken, residuals } => [0, taken, residuals],
        Line::Failed { place, taken } => [1, place, taken],
        Line::Refused { number, place } => [2, u64::from(number), place],
    }
}

fn refused(refusal: Refusal) -> StoredLine {
    [2, u64::from(refusal.number), refusal.place as u64]
}

// The front of an input: as much of it as the program reads first.
fn front(input: &[u8]) -> &[u8] {
    let n = input.len().min(16387);
    &input[..n]
}

pub fn whole(
    input: &[u8],
    list: &mut [u16],
    area0: &mut [u64],
    area1: &mut [u64],
    work: &mut [u64],
) -> StoredLine {
    numbers_of(line::line(input, list, area0, area1, work))
}

// The line after the events, in pieces of so many.
fn in_pieces(
    list: &[u16],
    mut state: State,
    area0: &mut [u64],
    area1: &mut [u64],
    events: &[u8],
    work: &mut [u64],
    piece: usize,
) -> Line {
    for part in events.chunks(piece.max(1)) {
        match line::resume(list, state, area0, area1, part, work) {
            ControlFlow::Continue(next) => state = next,
            ControlFlow::Break(line) => return line,
        }
    }
    line::conclude(state)
}

// What `open` gives of the front, and then the pieces.
pub fn pieces(
    input: &[u8],
    piece: usize,
    list: &mut [u16],
    area0: &mut [u64],
    area1: &mut [u64],
    work: &mut [u64],
) -> Option<StoredLine> {
    match line::open(front(input), list, area0, area1, work) {
        Ok(Started { state, count, next }) => {
            let events = input.get(next..)?;
            Some(numbers_of(in_pieces(
                list.get(..count)?,
                state,
                area0,
                area1,
                events,
                work,
                piece,
            )))
        }
        Err(refusal) => Some(refused(refusal)),
    }
}

pub fn open(
    input: &[u8],
    list: &mut [u16],
    area0: &mut [u64],
    area1: &mut [u64],
    work: &mut [u64],
) {
    let _ = line::open(front(input), list, area0, area1, work);
}

// The parts of an input by its head: the table, which Read puts into the list, and the events.
pub fn by_parts(
    input: &[u8],
    list: &mut [u16],
    area0: &mut [u64],
    area1: &mut [u64],
    work: &mut [u64],
) -> Option<StoredLine> {
    let bytes = match line::head(input) {
        Ok(bytes) => bytes,
        Err(refusal) => return Some(refused(refusal)),
    };
    let (table, events) = (input.get(bytes.start..bytes.end)?, input.get(bytes.end..)?);
    let list = match codec::read(table, list, work) {
        Ok(n) => list.get(..n)?,
        Err(refusal) => return Some(refused(refusal)),
    };
    match monitor::open(list, area0, area1, events, work) {
        Ok(last) => Some(numbers_of(line::conclude(last))),
        Err(Declined::Refused(refusal) | Declined::Stopped(refusal, _)) => Some(refused(refusal)),
    }
}
