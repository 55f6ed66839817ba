// The call, with its answer as the file has it.
use cases::{Answer, Refused};

pub fn write_sheet(book: &[u8], out: &mut [u8]) -> Answer {
    match sheet::sheet(book, out) {
        Ok(n) => Ok(n as u64),
        Err(refusal) => Err(Refused {
            number: u64::from(refusal.number),
            place: refusal.place as u64,
        }),
    }
}
