// One input through crate `line`, at once and in pieces, held to its stored lines, and what `open`
// keeps; or by Read and Open, where it has fewer slots than the program.
use crate::call::{StoredLine, by_parts, open, pieces, whole};
use cases::{Fault, fill, is_kept, lend};
use std::alloc::Global;

// The lengths of the list, the areas and the work area of a case.
#[derive(Clone, Copy)]
pub struct Lengths {
    pub list: u64,
    pub area0: u64,
    pub area1: u64,
    pub work: u64,
}

// The program's own.
pub const LENGTHS: Lengths = Lengths {
    list: 16384,
    area0: 4096,
    area1: 4096,
    work: 8192,
};

impl Lengths {
    // Whether the file may ask for them.
    fn are_lent(self) -> bool {
        self.list <= 16500 && self.area0 <= 4200 && self.area1 <= 4200 && self.work <= 8300
    }
}

// What is lent to a call.
#[derive(Drop)]
pub struct Buffers {
    list: Vec<u16>,
    area0: Vec<u64>,
    area1: Vec<u64>,
    work: Vec<u64>,
}

impl Buffers {
    pub fn new(alloc: Global) -> Buffers {
        Buffers {
            list: Vec::new(alloc),
            area0: Vec::new(alloc),
            area1: Vec::new(alloc),
            work: Vec::new(alloc),
        }
    }

    fn lend(&mut self, lengths: Lengths) -> Result<(), Fault> {
        lend(&mut self.list, lengths.list as usize)?;
        lend(&mut self.area0, lengths.area0 as usize)?;
        lend(&mut self.area1, lengths.area1 as usize)?;
        lend(&mut self.work, lengths.work as usize)?;
        Ok(())
    }

    fn fill(&mut self) {
        fill(&mut self.list);
        fill(&mut self.area0);
        fill(&mut self.area1);
        fill(&mut self.work);
    }

    fn whole(&mut self, input: &[u8]) -> StoredLine {
        self.fill();
        whole(
            input,
            &mut self.list,
            &mut self.area0,
            &mut self.area1,
            &mut self.work,
        )
    }

    fn pieces(&mut self, input: &[u8], piece: usize) -> Option<StoredLine> {
        self.fill();
        pieces(
            input,
            piece,
            &mut self.list,
            &mut self.area0,
            &mut self.area1,
            &mut self.work,
        )
    }

    // Of each buffer, 1 if `open` keeps it as it was filled, else 0.
    fn kept(&mut self, input: &[u8]) -> [u64; 4] {
        self.fill();
        open(
            input,
            &mut self.list,
            &mut self.area0,
            &mut self.area1,
            &mut self.work,
        );
        [
            u64::from(is_kept(&self.list)),
            u64::from(is_kept(&self.area0)),
            u64::from(is_kept(&self.area1)),
            u64::from(is_kept(&self.work)),
        ]
    }

    // `KIND A B KIND A B LIST AREA0 AREA1 WORK`
    pub fn is_line(
        &mut self,
        input: &[u8],
        piece: usize,
        lengths: Lengths,
        stored: [u64; 10],
    ) -> Result<bool, Fault> {
        if !lengths.are_lent() {
            return Ok(false);
        }
        self.lend(lengths)?;
        let [
            kind,
            a,
            b,
            kind_after,
            a_after,
            b_after,
            list,
            area0,
            area1,
            work,
        ] = stored;
        Ok(
            self.whole(input) == [kind, a, b]
                && self.pieces(input, piece) == Some([kind_after, a_after, b_after])
                && self.kept(input) == [list, area0, area1, work],
        )
    }

    // `KIND A B`, with areas of so many slots.
    pub fn is_line_by_parts(
        &mut self,
        input: &[u8],
        slots: u64,
        stored: StoredLine,
    ) -> Result<bool, Fault> {
        if 255 < slots {
            return Ok(false);
        }
        self.lend(Lengths {
            area0: slots * 16,
            area1: slots * 16,
            ..LENGTHS
        })?;
        let line = by_parts(
            input,
            &mut self.list,
            &mut self.area0,
            &mut self.area1,
            &mut self.work,
        );
        Ok(line == Some(stored))
    }
}
