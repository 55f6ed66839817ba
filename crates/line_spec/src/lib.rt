// What the program says of an input (document 01, "The program and its lines"): definitions and
// theorems, no code. `specs/Lib.antt` lists the definitions in reading order, `specs/Claims.antt`
// what is proved of them.
#![tactic(auto)]
