// What an operator reads on the glass: document 02, wish 7. Four digits, two nibbles each; numbers alone, no machine.
#![tactic(auto)]

ghost use Rattle.glass.specs.Reading.{Refused};

pub mod draw;
mod figure;
pub mod read;
mod shapes;
mod signed;
pub mod text;

use refusals::Refusal;

// What a glass shows: nothing, or a signed whole number and the count of digits after the point.
#[derive(Clone, Copy, Debug, PartialEq, Eq)]
pub enum Reading {
    Dark,
    Number(i32, u8),
}

// Why a picture has no reading.
#[derive(Clone, Copy, Debug, PartialEq, Eq)]
pub enum Unseen {
    // It has not eight nibbles.
    BadLength,
    // A nibble is over 15.
    BadNibble,
    // The leftmost digit that no valid picture with the same digits before it has.
    Unreadable(u8),
}

impl From<Unseen> for Refusal {
    ghost from_gives = { Refused };

    fn from(unseen: Unseen) -> Refusal {
        match unseen {
            Unseen::BadLength => Refusal::Buffer,
            Unseen::BadNibble => Refusal::Value,
            Unseen::Unreadable(_) => Refusal::Glass,
        }
    }
}
