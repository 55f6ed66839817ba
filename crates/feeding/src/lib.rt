// Feed (document 01, "Operations"), proved equal to its definition in crate monitor_spec: all
// events of a call.
#![tactic(auto)]

mod feeder;

pub use feeder::{feed, take_all};
pub use set_step::STORE_WORDS;
pub use taking::take_anew;
