// What the monitor does in wash hours (document 02, W5): definitions and theorems, no code.
// `specs/Lib.antt` lists the definitions in reading order, `specs/Claims.antt` what is proved of
// them.
#![tactic(auto)]
