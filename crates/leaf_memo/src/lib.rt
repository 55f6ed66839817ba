// What a call keeps of leaves in a step's store: the results of a leaf after an event, looked up
// where the same leaf comes again. The definitions are in `specs/`; `specs/Lib.antt` lists them.
#![tactic(auto)]

mod memo;

pub use memo::{copy_part, entry_at, forget, is_entry, keep, keeps_some};
