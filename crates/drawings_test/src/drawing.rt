// A case of a few lines: bytes of the input, what is lent, and the case with its stored line.
use crate::trial::{Buffers, LENGTHS, Lengths};
use cases::{Fault, Outcome, Trial, answered, numbers, read_list};
use std::alloc::Global;

// The longest input, and the most bytes of a line.
const LONGEST: usize = 100000;

const MOST_BYTES: usize = 8000;

// The input so far, and what is lent: lengths, or so many slots.
#[derive(Drop)]
pub struct Drawing {
    input: Vec<u8>,
    bytes: Vec<u8>,
    lengths: Lengths,
    slots: Option<u64>,
    buffers: Buffers,
}

impl Drawing {
    pub fn new(alloc: Global) -> Drawing {
        Drawing {
            input: Vec::new(alloc),
            bytes: Vec::new(alloc),
            lengths: LENGTHS,
            slots: None,
            buffers: Buffers::new(alloc),
        }
    }

    // `i b b ..`
    fn take_bytes(&mut self, text: &str) -> Result<Outcome, Fault> {
        read_list(text, MOST_BYTES, &mut self.bytes)?;
        self.input.extend_from_slice(&self.bytes)?;
        if LONGEST < self.input.len() {
            return Err(Fault::Malformed);
        }
        Ok(Outcome::Part)
    }

    // `l LIST AREA0 AREA1 WORK`
    fn take_lengths(&mut self, text: &str) -> Result<Outcome, Fault> {
        let [list, area0, area1, work] = numbers::<4>(text)?;
        self.lengths = Lengths {
            list,
            area0,
            area1,
            work,
        };
        Ok(Outcome::Part)
    }

    // `s SLOTS`
    fn take_slots(&mut self, text: &str) -> Result<Outcome, Fault> {
        let [slots] = numbers::<1>(text)?;
        self.slots = Some(slots);
        Ok(Outcome::Part)
    }

    // `c PIECE`, and the line: with `s`, that of Read and Open. A piece of 0 is all events.
    fn try_case(&mut self, text: &str, stored: &str) -> Result<Outcome, Fault> {
        let [piece] = numbers::<1>(text)?;
        let piece = if piece == 0 { LONGEST } else { piece as usize };
        let is_right = match self.slots {
            None => {
                self.buffers
                    .is_line(&self.input, piece, self.lengths, numbers::<10>(stored)?)?
            }
            Some(slots) => {
                self.buffers
                    .is_line_by_parts(&self.input, slots, numbers::<3>(stored)?)?
            }
        };
        self.input.clear();
        self.lengths = LENGTHS;
        self.slots = None;
        Ok(Outcome::from(is_right))
    }
}

impl Trial for Drawing {
    fn take_line(&mut self, line: &str) -> Result<Outcome, Fault> {
        if let Some((call, stored)) = answered(line) {
            let text = call.strip_prefix('c').ok_or(Fault::Malformed)?;
            self.try_case(text, stored)
        } else if let Some(text) = line.strip_prefix('i') {
            self.take_bytes(text)
        } else if let Some(text) = line.strip_prefix('l') {
            self.take_lengths(text)
        } else if let Some(text) = line.strip_prefix('s') {
            self.take_slots(text)
        } else {
            Err(Fault::Malformed)
        }
    }
}
