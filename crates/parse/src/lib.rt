// Reading a whole table from a number list into a lent work area: refusals 3, 5 and 6 (document 01,
// "Numbers and table", "When the monitor declines"). The definitions are in crate table, above all
// in its `specs/Grammar.antt`, and what the code promises in `specs/Parse.antt` of table_index.
#![tactic(auto)]

mod definitions;
mod leaves;
mod parser;
mod references;
mod spots;
mod terms;

pub use parser::parse;
