// What the calls of a history are lent: a number list, two areas and a record. The areas are the
// beginnings of two buffers.
//     change    a line that changes it
use crate::call::state_of;
use cases::{Fault, numbers, read_list};
use monitor::State;
use std::alloc::{AllocError, Global};

// The words of each buffer, the numbers of the longest list, and the numbers before a call's `=`.
pub const BUFFER: usize = 4160;

pub const LONGEST_LIST: usize = 16500;

pub const LONGEST_CALL: usize = 5101;

#[derive(Drop)]
pub struct History {
    pub list: Vec<u16>,
    pub buffer0: Vec<u64>,
    pub buffer1: Vec<u64>,
    pub length0: usize,
    pub length1: usize,
    pub state: State,
    // What a call is lent beside, and the numbers of its line.
    pub numbers: Vec<u64>,
    pub events: Vec<u8>,
    pub further0: Vec<u64>,
    pub further1: Vec<u64>,
    pub work: Vec<u64>,
}

// Junk that counts down from a word.
pub fn count_down(area: &mut [u64], first: u64) {
    for (i, w) in area.iter_mut().enumerate() {
        *w = first.wrapping_sub(i as u64);
    }
}

// Words put into a buffer from an index on, where they fit.
fn put(buffer: &mut [u64], index: u64, words: &[u64]) -> Result<(), Fault> {
    let from = index as usize;
    let rest = buffer.get_mut(from..).ok_or(Fault::Malformed)?;
    let part = rest.get_mut(..words.len()).ok_or(Fault::Malformed)?;
    part.copy_from_slice(words);
    Ok(())
}

impl History {
    pub fn new(alloc: Global) -> Result<History, AllocError> {
        Ok(History {
            list: Vec::new(alloc),
            buffer0: vec![in alloc; 0; BUFFER]?,
            buffer1: vec![in alloc; 0; BUFFER]?,
            length0: 0,
            length1: 0,
            state: state_of([0; 5]),
            numbers: Vec::new(alloc),
            events: Vec::new(alloc),
            further0: Vec::new(alloc),
            further1: Vec::new(alloc),
            work: Vec::new(alloc),
        })
    }

    // `t n n ..`: a history begins.
    fn begin(&mut self, list: &str) -> Result<(), Fault> {
        self.state = state_of([0; 5]);
        self.change_list(list)
    }

    // `u n n ..`: the number list.
    fn change_list(&mut self, list: &str) -> Result<(), Fault> {
        read_list(list, LONGEST_LIST, &mut self.list)
    }

    // `a LENGTH0 LENGTH1 FILL`: the areas.
    fn change_areas(&mut self, text: &str) -> Result<(), Fault> {
        let [length0, length1, how] = numbers::<3>(text)?;
        self.length0 = length0 as usize;
        self.length1 = length1 as usize;
        match how {
            0 => {
                self.buffer0.fill(0);
                self.buffer1.fill(0);
            }
            1 => {
                count_down(&mut self.buffer0, u64::MAX);
                count_down(&mut self.buffer1, u64::MAX - 8192);
            }
            _ => {}
        }
        Ok(())
    }

    // `r TAKEN COUNT PEAK FAILED AT`: the record.
    fn change_state(&mut self, text: &str) -> Result<(), Fault> {
        self.state = state_of(numbers::<5>(text)?);
        Ok(())
    }

    // `x AREA INDEX w w ..`: words of a buffer.
    fn change_words(&mut self, text: &str) -> Result<(), Fault> {
        read_list(text, LONGEST_CALL, &mut self.numbers)?;
        match self.numbers.as_slice() {
            [0, index, words @ ..] => put(&mut self.buffer0, *index, words),
            [_, index, words @ ..] => put(&mut self.buffer1, *index, words),
            _ => Err(Fault::Malformed),
        }
    }

    pub fn change(&mut self, line: &str) -> Result<(), Fault> {
        if let Some(list) = line.strip_prefix('t') {
            self.begin(list)
        } else if let Some(list) = line.strip_prefix('u') {
            self.change_list(list)
        } else if let Some(text) = line.strip_prefix('a') {
            self.change_areas(text)
        } else if let Some(text) = line.strip_prefix('r') {
            self.change_state(text)
        } else if let Some(text) = line.strip_prefix('x') {
            self.change_words(text)
        } else {
            Err(Fault::Malformed)
        }
    }
}
