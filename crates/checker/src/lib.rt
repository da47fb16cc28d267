// The checker of ROM masks: which pairs of address and level a mask may run, and whether one of them is forbidden.
#![tactic(auto)]

pub mod check;
pub mod flow;
mod next;
mod walk;
pub mod way;
