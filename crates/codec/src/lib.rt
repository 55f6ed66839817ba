// Read and Write: bytes to the numbers of a table and back (document 01, "Numbers and table",
// "Operations"). The definitions are in crate table: `specs/Operations.antt` for the two,
// `specs/BytesRefused.antt` for the refusals of bytes.
#![tactic(auto)]

mod bytes;
mod clear;
mod reader;
mod writer;

pub use reader::read;
pub use writer::write;
