// The judging behind `trace_monitor`: a monitor on an input's table, and then one event after
// another, with the events permitted after each. The table is not judged again at each event: its
// index stands in the work area from then on. The definitions are in crate `trace_spec`; what holds
// between calls, and one event, are in crate `tracing`.
//     open_trace      the front of an input: its table read, its monitor opened
//     trace_event     one event more
#![tactic(auto)]

mod answer;
mod opener;

pub use answer::Started;
pub use opener::open_trace;
pub use tracing::{Refused, TraceLine, Traced, trace_event};
