// The data path of the HT1130, on numbers alone: sums and rotates, the data memory, the timer's count.
// Each function agrees with its definition for every value of its types, so callers owe nothing.
#![tactic(auto)]

pub mod alu;
pub mod memory;
pub mod timer;
