// The records of a book, judged first to last.
ghost use Rattle.std.specs.Prelude.{◌≡◌};
ghost use Rattle.lot_book.specs.Book.{Added, judgement};
ghost use Rattle.lot_book.specs.Book.{sound as soundAfter};

use crate::entry::{Lot, lot_at};

impl Lot {
    // Whether this is a good record where its lot is to be `floor` or more.
    #[tactic(auto, unfolding(crate::specs::Book::sound))]
    fn sound(self, floor: u64) -> bool
        ensures { result ≡ soundAfter floor self }
    {
        floor <= self.number
            && self.number < 10_000_000_000
            && self.mark <= 1
            && self.place <= self.taken
            && self.place < 100_000_000
            && (0 < self.mark || self.place == 0)
    }
}

// A sum with one number more; none where it is over 2^64 - 1.
#[tactic(auto, using(crate::proofs::Book::Laws::added_sum, crate::proofs::Book::Laws::added_again))]
fn add(total: Option<u64>, n: u64) -> Option<u64>
    ensures { Added total n result }
{
    total?.checked_add(n)
}

// How many records a good book has, and the sum of what they took, where that is at most 2^64 - 1.
#[derive(Clone, Copy)]
pub struct Judged {
    pub count: usize,
    pub total: Option<u64>,
}

// The index of the first bad record.
#[derive(Clone, Copy)]
pub struct BadRecord {
    pub index: usize,
}

// All records of a book, first to last.
pub fn judge(book: &[u8]) -> Result<Judged, BadRecord>
    ensures { result ≡ judgement book.now }
{
    let mut at = 0;
    let mut floor = 0;
    let mut count = 0;
    let mut total = Some(0);
    // no index: the next place is what reading a record gives
    while at < book.len() {
        let (lot, next) = lot_at(book, at).ok_or(BadRecord { index: count })?;
        if !lot.sound(floor) {
            return Err(BadRecord { index: count });
        }
        at = next;
        floor = lot.number + 1;
        total = add(total, lot.taken);
        count += 1;
    }
    Ok(Judged { count, total })
}
