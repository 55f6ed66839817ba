// What a table means (document 01, "Meaning by traces", "Meaning by steps"): definitions and
// theorems, no code. `specs/Lib.antt` lists the definitions in reading order, `specs/Claims.antt`
// what is proved of them.
#![tactic(auto)]
