// Residuals as words (01, "Residuals"): what a node word says of its term, the residuals that a
// term is resolved to, and a leaf's distinct results. The definitions are in `specs/`;
// `specs/Lib.antt` lists them in reading order.
#![tactic(auto)]

mod descent;
mod leaves;
mod resolve;
mod words;

pub use descent::{Landed, descend, resolve_into};
pub use leaves::{distinct, key_of};
pub use resolve::{pop_to, push_into, resolve_definition, term_into};
pub use words::{holds_at, kind_at, node_at};
