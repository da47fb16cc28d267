// What a bench links beside crate ht1130: the checker, scripts, instructions read and written, the assembler and readings, over numbers and byte slices.
// include/ht1130_tools.h documents each function for its callers.
#![tactic(auto)]

pub mod instructions;
pub mod masks;
pub mod pictures;
pub mod scripts;
pub mod texts;
