// A line of the file as a case: its call on buffers full of junk, and whether its answer, and what it
// leaves in them, are as stored (01, "Operations", "When the monitor declines").
use crate::call;
use cases::{
    Fault, Outcome, Trial, digest, lend, length, numbers, read_list, section, stands, stored_answer,
};
use std::alloc::Global;

// The longest list and output, and the longest work area, that the file asks for.
const LONGEST: usize = 16500;

const LONGEST_WORK: usize = 8300;

// The buffers of a call: an input and an output, in bytes and in numbers, and a work area.
#[derive(Drop)]
pub struct Tables {
    bytes: Vec<u8>,
    list: Vec<u16>,
    work: Vec<u64>,
}

impl Tables {
    pub fn new(alloc: Global) -> Tables {
        Tables {
            bytes: Vec::new(alloc),
            list: Vec::new(alloc),
            work: Vec::new(alloc),
        }
    }

    // `r OUTLEN WORKLEN : b b .. = NUMBER PLACE OUTPUT WORK`
    fn try_read(&mut self, lengths: &str, input: &str, stored: &str) -> Result<Outcome, Fault> {
        let [out, work] = numbers::<2>(lengths)?;
        let [number, place, output, kept] = numbers::<4>(stored)?;
        read_list(input, LONGEST, &mut self.bytes)?;
        lend(&mut self.list, length(out, LONGEST)?)?;
        lend(&mut self.work, length(work, LONGEST_WORK)?)?;
        let answer = call::read(&self.bytes, &mut self.list, &mut self.work);
        Ok(Outcome::from(
            answer == stored_answer(number, place)
                && digest(&self.list) == output
                && stands(&self.work, kept),
        ))
    }

    // `w OUTLEN WORKLEN : n n .. = NUMBER PLACE OUTPUT WORK`
    fn try_write(&mut self, lengths: &str, input: &str, stored: &str) -> Result<Outcome, Fault> {
        let [out, work] = numbers::<2>(lengths)?;
        let [number, place, output, kept] = numbers::<4>(stored)?;
        read_list(input, LONGEST, &mut self.list)?;
        lend(&mut self.bytes, length(out, LONGEST)?)?;
        lend(&mut self.work, length(work, LONGEST_WORK)?)?;
        let answer = call::write(&self.list, &mut self.bytes, &mut self.work);
        Ok(Outcome::from(
            answer == stored_answer(number, place)
                && digest(&self.bytes) == output
                && stands(&self.work, kept),
        ))
    }

    // `c : n n .. = NUMBER PLACE WORK`
    fn try_check(&mut self, input: &str, stored: &str) -> Result<Outcome, Fault> {
        let [number, place, kept] = numbers::<3>(stored)?;
        read_list(input, LONGEST, &mut self.list)?;
        lend(&mut self.work, 8192)?;
        let answer = call::check(&self.list, &mut self.work);
        Ok(Outcome::from(answer == stored_answer(number, place) && stands(&self.work, kept)))
    }
}

impl Trial for Tables {
    fn take_line(&mut self, line: &str) -> Result<Outcome, Fault> {
        let (call, stored) = line.split_once(" =").ok_or(Fault::Malformed)?;
        let (head, input) = section(call)?;
        if let Some(lengths) = head.strip_prefix('r') {
            self.try_read(lengths, input, stored)
        } else if let Some(lengths) = head.strip_prefix('w') {
            self.try_write(lengths, input, stored)
        } else if head == "c" {
            self.try_check(input, stored)
        } else {
            Err(Fault::Malformed)
        }
    }
}
