// The operands of a line of assembler text: its characters, its tokens, and what an operand counts.
#![tactic(auto)]

pub mod characters;
pub mod labels;
pub mod numbers;
pub mod operands;
pub mod tokens;
