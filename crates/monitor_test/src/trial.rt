// A line of the file: a change of what is lent, or a call with a work area full of junk, and whether its
// answer, and what it leaves in the lent areas, are as stored.
use crate::call::{answer_of, offer_of};
use crate::history::{BUFFER, History, LONGEST_CALL, count_down};
use cases::{Fault, Outcome, Trial, digest, digest_more, lend, length, numbers, read_list, stands};
use monitor::Answer;

// The longest work area that the file asks for.
const LONGEST_WORK: usize = 8300;

// A digest of two areas.
fn both(area0: &[u64], area1: &[u64]) -> u64 {
    digest_more(digest(area0), area1)
}

// The area that is lent of a buffer.
fn area(buffer: &[u64], length: usize) -> Result<&[u64], Fault> {
    buffer.get(..length).ok_or(Fault::Malformed)
}

fn area_mut(buffer: &mut [u64], length: usize) -> Result<&mut [u64], Fault> {
    buffer.get_mut(..length).ok_or(Fault::Malformed)
}

impl History {
    // The numbers of a call, and its work area.
    fn lend_work(&mut self, text: &str) -> Result<(), Fault> {
        read_list(text, LONGEST_CALL, &mut self.numbers)?;
        let work = self.numbers.first().copied().ok_or(Fault::Malformed)?;
        lend(&mut self.work, length(work, LONGEST_WORK)?)?;
        Ok(())
    }

    // The events, which stand after so many numbers.
    fn read_events(&mut self, from: usize) -> Result<(), Fault> {
        self.events.clear();
        for n in self.numbers.as_slice().get(from..).ok_or(Fault::Malformed)? {
            let event = u8::try_from(*n).map_err(|_| Fault::Malformed)?;
            self.events.push(event).map_err(|_| Fault::OutOfMemory)?;
        }
        Ok(())
    }

    // Of Open and Feed `= NUMBER PLACE HAS TAKEN COUNT PEAK FAILED AT DIGEST KEPT`; a record that is handed back
    // is lent to the next call.
    fn judge(&mut self, answer: Answer, stored: &str) -> Result<Outcome, Fault> {
        let [
            number,
            place,
            has,
            taken,
            count,
            peak,
            failed,
            at,
            after,
            kept,
        ] = numbers::<10>(stored)?;
        let given = answer_of(answer);
        self.state = given.state.unwrap_or(self.state);
        let area0 = area(&self.buffer0, self.length0)?;
        let area1 = area(&self.buffer1, self.length1)?;
        Ok(Outcome::from(
            given.numbers == [number, place, has, taken, count, peak, failed, at]
                && both(area0, area1) == after
                && stands(&self.work, kept),
        ))
    }

    // `b WORK e e ..`
    fn try_open(&mut self, text: &str, stored: &str) -> Result<Outcome, Fault> {
        self.lend_work(text)?;
        self.read_events(1)?;
        let area0 = area_mut(&mut self.buffer0, self.length0)?;
        let area1 = area_mut(&mut self.buffer1, self.length1)?;
        let answer = monitor::open(&self.list, area0, area1, &self.events, &mut self.work);
        self.judge(answer, stored)
    }

    // `f WORK e e ..`
    fn try_feed(&mut self, text: &str, stored: &str) -> Result<Outcome, Fault> {
        self.lend_work(text)?;
        self.read_events(1)?;
        let area0 = area_mut(&mut self.buffer0, self.length0)?;
        let area1 = area_mut(&mut self.buffer1, self.length1)?;
        let answer = monitor::feed(
            &self.list,
            self.state,
            area0,
            area1,
            &self.events,
            &mut self.work,
        );
        self.judge(answer, stored)
    }

    // Further areas, full of junk, of so many words.
    fn lend_further(&mut self) -> Result<(), Fault> {
        let [_, length0, length1, ..] = self.numbers.as_slice() else {
            return Err(Fault::Malformed);
        };
        lend(&mut self.further0, length(*length0, BUFFER)?)?;
        lend(&mut self.further1, length(*length1, BUFFER)?)?;
        count_down(&mut self.further0, u64::MAX - 16384);
        count_down(&mut self.further1, u64::MAX - 24576);
        Ok(())
    }

    // `d WORK LENGTH0 LENGTH1 e e .. = NUMBER PLACE HAS TAKEN COUNT PEAK FAILED AT DIGEST FURTHER KEPT`
    fn try_trial(&mut self, text: &str, stored: &str) -> Result<Outcome, Fault> {
        self.lend_work(text)?;
        self.lend_further()?;
        self.read_events(3)?;
        let [
            number,
            place,
            has,
            taken,
            count,
            peak,
            failed,
            at,
            after,
            further,
            kept,
        ] = numbers::<11>(stored)?;
        let area0 = area(&self.buffer0, self.length0)?;
        let area1 = area(&self.buffer1, self.length1)?;
        let answer = monitor::try_feed(
            &self.list,
            self.state,
            area0,
            area1,
            &mut self.further0,
            &mut self.further1,
            &self.events,
            &mut self.work,
        );
        Ok(Outcome::from(
            answer_of(answer).numbers == [number, place, has, taken, count, peak, failed, at]
                && both(area0, area1) == after
                && both(&self.further0, &self.further1) == further
                && stands(&self.work, kept),
        ))
    }

    // `o WORK = NUMBER PLACE FIRST SECOND DIGEST KEPT`
    fn try_offer(&mut self, text: &str, stored: &str) -> Result<Outcome, Fault> {
        let [work] = numbers::<1>(text)?;
        lend(&mut self.work, length(work, LONGEST_WORK)?)?;
        let [number, place, first, second, after, kept] = numbers::<6>(stored)?;
        let area0 = area(&self.buffer0, self.length0)?;
        let area1 = area(&self.buffer1, self.length1)?;
        let answer = monitor::offer(&self.list, self.state, area0, area1, &mut self.work);
        Ok(Outcome::from(
            offer_of(answer) == [number, place, first, second]
                && both(area0, area1) == after
                && stands(&self.work, kept),
        ))
    }

    // `v = AREA LENGTH`
    fn try_view(&self, stored: &str) -> Result<Outcome, Fault> {
        let [number, length] = numbers::<2>(stored)?;
        let area0 = area(&self.buffer0, self.length0)?;
        let area1 = area(&self.buffer1, self.length1)?;
        let part = monitor::view(self.state, area0, area1);
        let viewed = if number == 0 { area0 } else { area1 };
        Ok(Outcome::from(part.len() as u64 == length && viewed.starts_with(part)))
    }
}

impl Trial for History {
    fn take_line(&mut self, line: &str) -> Result<Outcome, Fault> {
        let Some((call, stored)) = cases::answered(line) else {
            self.change(line)?;
            return Ok(Outcome::Part);
        };
        if let Some(text) = call.strip_prefix('b') {
            self.try_open(text, stored)
        } else if let Some(text) = call.strip_prefix('f') {
            self.try_feed(text, stored)
        } else if let Some(text) = call.strip_prefix('d') {
            self.try_trial(text, stored)
        } else if let Some(text) = call.strip_prefix('o') {
            self.try_offer(text, stored)
        } else if call == "v" {
            self.try_view(stored)
        } else {
            Err(Fault::Malformed)
        }
    }
}
