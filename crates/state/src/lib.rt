// The state that a caller keeps between calls: the record, the two areas, whether they are
// consistent, View, and what the operations answer (document 01, "Operations"). What each comes to
// is defined in crate monitor_spec; `specs/Lib.antt` lists what the code says in those terms.
#![tactic(auto)]

mod answer;
mod consistency;
mod lengths;
mod record;
mod viewer;

pub use answer::{Answer, Declined, EventBits};
pub use consistency::consistent;
pub use index::IndexedTable;
pub use lengths::lengths_fit;
pub use record::{State, Verdict};
pub use slots::{clear_all, clear_first};
pub use viewer::view;
