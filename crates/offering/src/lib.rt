// Offer (document 01, "Operations"), proved equal to its definition in crate monitor_spec.
#![tactic(auto)]

mod offerer;

pub use offerer::{offer, offered};
