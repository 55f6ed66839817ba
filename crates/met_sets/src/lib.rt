// The residual sets that a call of Feed has met, kept in one struct of arrays: a lazy automaton, as
// regular expression engines have. What is kept is `Met` of `specs/Sets.antt`.
#![tactic(auto)]

mod run;
mod sets;

pub use run::{Followed, follow};
pub use sets::{
    MOST_SETS, MOST_SLOTS, MetSets, ROW_BYTES, SET_WORDS, SLOT_WORDS, STARTS, count_of, has_room,
    link,
};
