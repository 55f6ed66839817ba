// Open (document 02, W7: "Start and the first Feed become one operation"), proved equal to its
// definition in crate monitor_spec.
#![tactic(auto)]

mod opener;

pub use opener::{open, resolve_last};
