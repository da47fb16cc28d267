// The program ROM: an instruction written as its bytes, read at an address of a mask, and lengths and cycles by rule. It stands apart from isa,
// which datapath and reach need alone.
#![tactic(auto)]

pub mod encoder;
pub mod reader;
pub mod timing;
