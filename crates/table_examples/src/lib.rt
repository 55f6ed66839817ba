// Worked inputs of the table layer that are long (document 01): tables at the limit of 16,384
// bytes, and what Read and Write leave in whole buffers. Rows and that they hold, in `specs/` and
// `proofs/`; no code. They stand apart from `table`, since computing them takes longer than its
// proofs.
#![tactic(auto)]
