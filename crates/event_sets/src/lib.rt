// Reading the event sets of a table from a number list into a lent work area, each row a word or
// two: refusals 3 and 5 (document 01, "Numbers and table", "When the monitor declines"; 02, W6).
// The definitions are in crate table, above all in its `specs/Grammar.antt`, and in crate
// table_index, `specs/Parse.antt`.
#![tactic(auto)]

mod rows;

pub use rows::read_sets;
