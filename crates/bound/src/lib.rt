// How long an edge is held: the bound of a pair above main, by a walk over the chains from it to a return.
#![tactic(auto)]

pub mod bound;
pub mod bounds;
pub mod calls;
mod longest;
mod ways;
