// A timetable of wash hours (document 02, W5), a flat list of windows: first minute, last minute,
// and so on. Definitions and theorems, no code: `specs/Lib.antt` lists the definitions in reading
// order, `specs/Claims.antt` what is proved of them.
#![tactic(auto)]
