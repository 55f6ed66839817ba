// What is told of a lot book.
//     NoSheet     why there is no sheet
//     tell        of a book as standard input gave it
// `specs/Reply.antt` has what each function promises.
ghost use Rattle.std.specs.Prelude.{◌≡◌, true, length, take};
ghost use Rattle.input.specs.Reading.{Parts};
ghost use Rattle.lot_sheet.specs.Reply.{tell_said, refused_as, tell_of};

use input::Part;
use sheet::sheet;
use std::fmt;
use table::Refusal;

// The index of a bad record, that the total is above 2^64-1, that the book has more than 65,536
// bytes.
#[derive(Clone, Copy)]
pub enum NoSheet {
    BadRecord(usize),
    TotalOver,
    TooLong,
}

impl fmt::Display for NoSheet {
    fn fmt<W: fmt::Write>(&self, f: &mut fmt::Formatter<W>) -> fmt::Result {
        match self {
            NoSheet::BadRecord(index) => write!(
                f,
                "refused 14, bad book: record {index}, counted from 0"
            ),
            NoSheet::TotalOver => write!(f, "refused 15: the total is above 2^64-1"),
            NoSheet::TooLong => write!(f, "the book is longer than 65536 bytes"),
        }
    }
}

// A refusal of a text that has room: 14 or 15.
impl From<Refusal> for NoSheet {
    ghost from_gives = { λ refusal e. e ≡ refused_as refusal.number refusal.place };

    #[tactic(auto, unfolding(crate::specs::Reply::refused_as))]
    fn from(refusal: Refusal) -> NoSheet {
        if refusal.number == 14 {
            NoSheet::BadRecord(refusal.place)
        } else {
            NoSheet::TotalOver
        }
    }
}

// A whole book: how many bytes of the text are its sheet, or why there is none.
fn tell_book(book: &[u8], text: &mut [u8]) -> Result<usize, NoSheet>
    ensures { tell_said result text.new ≡ tell_of true book.now text.old }
{
    Ok(sheet(book, text)?)
}

// Of a buffer of which a part was filled, with a text that has room for every sheet.
pub fn tell(book: &[u8], part: Part, text: &mut [u8]) -> Result<usize, NoSheet>
    requires book_len { (length book.now ≡ 65537) × Parts (length book.now) part }
    requires text_len { length text.old ≡ 802865 }
    ensures { tell_said result text.new
        ≡ tell_of part.last (take part.count book.now) text.old }
{
    if part.last() {
        let n = part.count();
        return tell_book(&book[..n], text);
    }
    Err(NoSheet::TooLong)
}
