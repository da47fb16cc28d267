// What a board links: the machine record that a host lends, its power-on, its events, its report and its count of strays. include/ht1130.h
// documents each function for its callers. What a bench links beside is crate ht1130_tools.
#![tactic(auto)]

mod events;
pub mod lent;
