// The panel script: the record format, the whole check before anything runs, applying records, reports into a lent buffer.
#![tactic(auto)]

ghost use Rattle.std.specs.Prelude.{Some};
ghost use Rattle.script.specs.Text.{refused_text};

pub mod apply;
pub mod check;
mod format;
pub mod hex;

use cpu::Options;
use machine::Machine;
use machine::events::Event;
use refusals::Refusal;
use std::fmt;

// A script's record: a power-on with its options and the nibble that fills the image, or the event that another kind names.
#[derive(Clone, Copy)]
pub enum Record {
    Power(Options, u8),
    Other(Option<Event>),
}

// Why a script is refused, and the offset that goes with it.
#[derive(Clone, Copy, Debug, PartialEq, Eq)]
pub struct Refused {
    pub refusal: Refusal,
    pub offset: usize,
}

// As the programs print it.
impl fmt::Display for Refused {
    ghost output = { λ r. Some (refused_text r) };

    fn fmt<W: fmt::Write>(&self, f: &mut fmt::Formatter<W>) -> fmt::Result {
        write!(f, "{} at {}", self.refusal, self.offset)
    }
}

// The refusal of a record, 0 for none; where the next one starts, and the machine that it gets. A record that its machine refuses is passed
// all the same, so this is no Result.
#[derive(Clone, Copy)]
pub struct Progress {
    pub refusal: u8,
    pub at: usize,
    pub machine: Machine,
}
