// What the monitor's operations come to (document 01, "Residuals", "Operations"): definitions and
// theorems, no code. `specs/Lib.antt` lists the definitions in reading order, `specs/Claims.antt`
// what is proved of them.
#![tactic(auto)]
