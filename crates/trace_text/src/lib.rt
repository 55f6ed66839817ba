// The text of a line of a trace: bytes in a lent buffer, which has room for the longest line. The
// definitions are in `specs/TraceText.antt`; the digits of a number are those of crate `decimal`.
//     start_text, event_text, refusal_text     of a line, by its kind
#![tactic(auto)]

mod parts;
mod texts;

pub use texts::{event_text, refusal_text, start_text};
