// One event of a trace: the record after it and the events permitted next. The table is not judged
// again: its index stands in the work area. The definitions are in crate `trace_spec`;
// `specs/Lib.antt` lists what the code's answers are and what holds between calls.
//     trace_event     one event more
#![tactic(auto)]

mod answer;
mod tracer;

pub use answer::{Refused, TraceLine, Traced};
pub use tracer::trace_event;
