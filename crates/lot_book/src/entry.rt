// One record of a book.
ghost use Rattle.std.specs.Prelude.{◌≡◌};
ghost use Rattle.lot_book.specs.Lot.{entry_at};

use crate::number::read;

// A record: "lot, taken, 0 for running or 1 for failed, place (0 if running)". The mark is a number, since a book may
// hold others, which `judge` refuses (theorem `bad_exactly`).
#[derive(Clone, Copy)]
pub struct Lot {
    pub number: u64,
    pub taken: u64,
    pub mark: u64,
    pub place: u64,
}

// The record at a position, its four numbers one after the other, and the position after it; or that none stands there.
pub fn lot_at(book: &[u8], at: usize) -> Option<(Lot, usize)>
    ensures { result ≡ entry_at book.now at }
{
    let (number, p) = read(book, at)?;
    let (taken, q) = read(book, p)?;
    let (mark, r) = read(book, q)?;
    let (place, next) = read(book, r)?;
    let lot = Lot {
        number,
        taken,
        mark,
        place,
    };
    Some((lot, next))
}
