// A line of the file as a call on lent areas, with a work area full of junk, and whether its answer,
// and what it leaves in them, are as stored (02, W5).
use crate::call::{Answer, answer_of, state_of};
use cases::{
    Element, Fault, Outcome, Trial, digest, digest_more, lend, length, numbers, read_list, section,
    stands,
};
use std::alloc::Global;

// The most that the file asks for: numbers of a table and of a timetable, events, words of an area
// and of a work area.
const LONGEST_TABLE: usize = 16500;

const LONGEST_TIMETABLE: usize = 8300;

const MOST_EVENTS: usize = 400;

const LONGEST_AREA: usize = 4160;

const LONGEST_WORK: usize = 8300;

#[derive(Drop)]
pub struct Washes {
    everyday: Vec<u16>,
    wash: Vec<u16>,
    windows: Vec<u16>,
    events: Vec<u8>,
    minutes: Vec<u64>,
    area0: Vec<u64>,
    area1: Vec<u64>,
    work: Vec<u64>,
}

// An area of so many words, the first of which are listed. The others are junk where `fill` is 1.
fn lend_area(words: &str, length: usize, fill: u64, area: &mut Vec<u64>) -> Result<(), Fault> {
    read_list(words, length, area)?;
    for i in area.len()..length {
        area.push(if fill == 1 { u64::junk(i) } else { 0 })
            .map_err(|_| Fault::OutOfMemory)?;
    }
    Ok(())
}

impl Washes {
    pub fn new(alloc: Global) -> Washes {
        Washes {
            everyday: Vec::new(alloc),
            wash: Vec::new(alloc),
            windows: Vec::new(alloc),
            events: Vec::new(alloc),
            minutes: Vec::new(alloc),
            area0: Vec::new(alloc),
            area1: Vec::new(alloc),
            work: Vec::new(alloc),
        }
    }

    // `NUMBER PLACE HAS STATE DIGEST KEPT`
    fn is_as_stored(&self, answer: Answer, stored: [u64; 12]) -> bool {
        let [
            number,
            place,
            has,
            started,
            taken,
            count,
            peak,
            failed,
            at,
            minute,
            after,
            kept,
        ] = stored;
        let state = [started, taken, count, peak, failed, at, minute];
        answer
            == Answer {
                number,
                place,
                has,
                state,
            }
            && digest_more(digest(&self.area0), &self.area1) == after
            && stands(&self.work, kept)
    }
}

impl Trial for Washes {
    // `f WORK LENGTH0 LENGTH1 FILL STATE` and the lists
    fn take_line(&mut self, line: &str) -> Result<Outcome, Fault> {
        let (call, stored) = line.split_once(" =").ok_or(Fault::Malformed)?;
        let (head, rest) = section(call)?;
        let (everyday, rest) = section(rest)?;
        let (wash, rest) = section(rest)?;
        let (windows, rest) = section(rest)?;
        let (events, rest) = section(rest)?;
        let (minutes, rest) = section(rest)?;
        let (words0, words1) = section(rest)?;
        let head = head.strip_prefix('f').ok_or(Fault::Malformed)?;
        let [
            work,
            length0,
            length1,
            fill,
            started,
            taken,
            count,
            peak,
            failed,
            at,
            minute,
        ] = numbers::<11>(head)?;
        read_list(everyday, LONGEST_TABLE, &mut self.everyday)?;
        read_list(wash, LONGEST_TABLE, &mut self.wash)?;
        read_list(windows, LONGEST_TIMETABLE, &mut self.windows)?;
        read_list(events, MOST_EVENTS, &mut self.events)?;
        read_list(minutes, MOST_EVENTS, &mut self.minutes)?;
        lend_area(
            words0,
            length(length0, LONGEST_AREA)?,
            fill,
            &mut self.area0,
        )?;
        lend_area(
            words1,
            length(length1, LONGEST_AREA)?,
            fill,
            &mut self.area1,
        )?;
        lend(&mut self.work, length(work, LONGEST_WORK)?)?;
        let stored = numbers::<12>(stored)?;
        let answer = monitor::timed_feed(
            &self.everyday,
            &self.wash,
            &self.windows,
            state_of([started, taken, count, peak, failed, at, minute]),
            &mut self.area0,
            &mut self.area1,
            &self.events,
            &self.minutes,
            &mut self.work,
        );
        Ok(Outcome::from(self.is_as_stored(answer_of(answer), stored)))
    }
}
