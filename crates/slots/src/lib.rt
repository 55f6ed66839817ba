// Slots of sixteen words in an area, ascending (01, "Residuals"): where one belongs, and holding
// one more; and zeroes in an area. The definitions are in `specs/`; `specs/Lib.antt` lists them in
// reading order.
#![tactic(auto)]

mod clear;
mod slots;

pub use clear::{clear_all, clear_first};
pub use slots::{Exceeded, put, store};
