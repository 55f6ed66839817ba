// The calls, with their answers as the file has them.
ghost use Rattle.std.specs.Prelude.{◌≡◌, length};

use cases::{Answer, Refused};
use index::IndexedTable;
use table::Refusal;

fn refused(refusal: Refusal) -> Answer {
    Err(Refused {
        number: u64::from(refusal.number),
        place: refusal.place as u64,
    })
}

fn counted(answer: Result<usize, Refusal>) -> Answer {
    match answer {
        Ok(n) => Ok(n as u64),
        Err(refusal) => refused(refusal),
    }
}

pub fn read(bytes: &[u8], out: &mut [u16], work: &mut [u64]) -> Answer {
    counted(codec::read(bytes, out, work))
}

pub fn write(list: &[u16], out: &mut [u8], work: &mut [u64]) -> Answer {
    counted(codec::write(list, out, work))
}

// The number of terms. Of the index that the check leaves only this is looked at.
pub fn check(list: &[u16], work: &mut [u64]) -> Answer
    requires { length work.old ≡ 8192 }
{
    match judge::check(list, work) {
        Ok(()) => {
            let table = IndexedTable { list, work };
            Ok(table.term_count() as u64)
        }
        Err(refusal) => refused(refusal),
    }
}
