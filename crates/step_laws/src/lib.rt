// Laws over crate set_step and the monitor's specification (crate monitor_spec) that the operations
// cite; no code. What a step asks holds of an area of proper residuals' slots, and what it leaves
// is such an area. `specs/Lib.antt` lists them.
#![tactic(auto)]
