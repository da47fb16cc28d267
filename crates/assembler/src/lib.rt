// The assembler: lines and passes over a text.
#![tactic(auto)]

pub mod assemble;
pub mod forms;
pub mod lines;
pub mod passes;
mod places;
pub mod refused;
