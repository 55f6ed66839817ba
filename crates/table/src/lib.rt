// The table layer's definitions, laws and claims, and the types that its code gives (document 01,
// "Numbers and table", "Operations", "When the monitor declines"). The functions are in crates
// event_sets, parse, judge and codec. `specs/Lib.antt` lists the definitions in reading order,
// `specs/Claims.antt` what is proved of them.
#![tactic(auto)]

mod answer;
pub mod bounds;
mod kind;
mod list;
mod rows;
mod terms;

pub use answer::Refusal;
pub use kind::Kind;
pub use list::number_at;
pub use rows::{Row, SetEnd};
pub use terms::{Head, Reference, Spot, TermEnd};
