// Residuals, what is left of them after events, and their slots (document 01, "Residuals"):
// definitions and laws, no code. `specs/Lib.antt` lists them.
#![tactic(auto)]
