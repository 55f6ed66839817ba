// Worked calls of the monitor (document 01, "Drawings on the wall" and its sentences; 02, W1, W5
// and W7): answers, and whole outcomes with every lent word. Rows and that they hold, in `specs/`
// and `proofs/`; no code. They stand apart from the definitions, since computing them takes longer
// than the definitions' proofs. K1 to K12 stand in `monitor_spec`.
#![tactic(auto)]
