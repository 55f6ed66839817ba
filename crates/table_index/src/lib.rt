// The index that an accepted table leaves in the work area: its layout, and what the functions that
// fill and read it promise. `specs/Lib.antt` lists the definitions in reading order.
#![tactic(auto)]

pub mod layout;
