// Events taken (document 01, "Operations", "When the monitor declines"): one from one area to
// another, under the cap that its slots are (`next_set`, `advance`); one on the two areas by parity
// (`take_event`); and those of a part of a call one after the other.
#![tactic(auto)]

mod event;
mod run;

pub use event::{advance, next_set, take_anew, take_event};
pub use run::{Run, take_each};
