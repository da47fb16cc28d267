// An instruction as document 001 writes it.
#![tactic(auto)]

ghost use Rattle.std.specs.Prelude.{◌≤◌};

pub mod letters;
pub mod line;

// A text: so many of the bytes, and zeros after it. The longest, MOV R1R0,0FFH, has 13. A buffer with its length, since nothing here has a heap.
#[derive(Clone, Copy, Debug, PartialEq, Eq)]
pub struct Text {
    bytes: [u8; 16],
    length: usize,
    ghost fits: { length ≤ 16 },
}
