// What the functions for C come to (crate `monitor_c`), in lent words: the record, the answers, and
// what a call returns and leaves. Definitions and theorems, no code: `specs/Lib.antt` lists the
// definitions in reading order, `specs/Claims.antt` what is proved of them.
#![tactic(auto)]
