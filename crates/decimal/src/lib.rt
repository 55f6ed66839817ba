// Numbers in decimal: definitions and what is proved of them, in `specs/`. No code stands here.
#![tactic(auto)]
