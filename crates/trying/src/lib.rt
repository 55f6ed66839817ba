// Try (document 02, W4), proved equal to its definition in crate monitor_spec: Feed's judging, a
// copy of the two areas, and Feed's run on the copy.
#![tactic(auto)]

mod copy;
mod trier;

pub use copy::copy_words;
pub use trier::try_feed;
