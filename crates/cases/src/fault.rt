// Why a line gives no outcome.
use std::alloc::AllocError;

#[derive(Debug, PartialEq, Eq, Drop)]
pub enum Fault {
    Malformed,
    OutOfMemory,
}

impl From<AllocError> for Fault {
    fn from(_: AllocError) -> Fault {
        Fault::OutOfMemory
    }
}
