// A line of the file as a case: its call on an output full of junk, and whether its answer, and what
// it leaves in the output, are as stored (02, W2).
use crate::call::write_sheet;
use cases::{
    Fault, Outcome, Trial, digest, lend, length, numbers, read_list, section, stored_answer,
};
use std::alloc::Global;

// The longest book and output that the file asks for.
const LONGEST: usize = 16500;

#[derive(Drop)]
pub struct Books {
    book: Vec<u8>,
    out: Vec<u8>,
}

impl Books {
    pub fn new(alloc: Global) -> Books {
        Books {
            book: Vec::new(alloc),
            out: Vec::new(alloc),
        }
    }
}

impl Trial for Books {
    // `s OUTLEN : b b .. = NUMBER VALUE OUTPUT`
    fn take_line(&mut self, line: &str) -> Result<Outcome, Fault> {
        let (call, stored) = line.split_once(" =").ok_or(Fault::Malformed)?;
        let (head, book) = section(call)?;
        let [out] = numbers::<1>(head.strip_prefix('s').ok_or(Fault::Malformed)?)?;
        let [number, value, output] = numbers::<3>(stored)?;
        read_list(book, LONGEST, &mut self.book)?;
        lend(&mut self.out, length(out, LONGEST)?)?;
        let answer = write_sheet(&self.book, &mut self.out);
        Ok(Outcome::from(answer == stored_answer(number, value) && digest(&self.out) == output))
    }
}
