// What `trace_monitor` says of an input, a line at the start and one after each event: definitions
// and theorems, no code. `specs/Lib.antt` lists the definitions in reading order,
// `specs/Claims.antt` what is proved of them.
#![tactic(auto)]
