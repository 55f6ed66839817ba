// The monitor of CSP_E tables: Feed, Offer, View, the record and the answers (document 01,
// "Operations"), Try, Feed in wash hours and Open (document 02, W4, W5, W7). Each operation is a
// crate of its own, proved equal to its definition in crate monitor_spec or wash_spec; this one
// brings them together.
#![tactic(auto)]

pub use feeding::feed;
pub use offering::offer;
pub use opening::open;
pub use state::{Answer, Declined, EventBits, State, Verdict, view};
pub use trying::try_feed;
pub use wash_state::{TimedAnswer, TimedState};
pub use washing::timed_feed;
