// The operations of document 01 ("Operations", "When the monitor declines"), and of document 02 the
// lot sheet (W2), Try (W4), Feed in wash hours (W5) and Open (W7), for C: a static library of
// functions over lent words, which `include/cspe_monitor.h` declares. Each returns the refusal's
// number, 0 where there is none; View, which never refuses, returns a count of words. What a call
// returns and leaves in the lent words is defined in crates `words_spec`, `sheet_words`
// and `wash_words`.
#![tactic(auto)]

mod feeder;
mod offerer;
mod opener;
mod sheets;
mod tables;
mod timer;
mod trier;
mod viewer;
