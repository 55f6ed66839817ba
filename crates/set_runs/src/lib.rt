// Runs of events over the residual sets that a call has met: along the transitions that are known,
// and learning one more where that may be.
#![tactic(auto)]

mod turns;

pub use turns::take_kept;
