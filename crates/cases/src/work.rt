// How a work area stands after a call, as a case says.
//     stands    whether it is all zero (0), is the junk (1), or is not all zero (2)
use crate::element::is_kept;
use crate::fault::Fault;

#[derive(Clone, Copy)]
enum Work {
    Cleared,
    Kept,
    Used,
}

impl TryFrom<u64> for Work {
    type Error = Fault;

    fn try_from(number: u64) -> Result<Work, Fault> {
        match number {
            0 => Ok(Work::Cleared),
            1 => Ok(Work::Kept),
            2 => Ok(Work::Used),
            _ => Err(Fault::Malformed),
        }
    }
}

impl Work {
    fn is_of(self, area: &[u64]) -> bool {
        match self {
            Work::Cleared => area.iter().all(|w| *w == 0),
            Work::Kept => is_kept(area),
            Work::Used => area.iter().any(|w| *w != 0),
        }
    }
}

// No area stands as another number says.
pub fn stands(area: &[u64], number: u64) -> bool {
    Work::try_from(number).is_ok_and(|work| work.is_of(area))
}
