// Why a text is refused.
ghost use Rattle.std.specs.Prelude.{Some};
ghost use Rattle.assembler.specs.Text.{refused_text};

use refusals::Refusal;
use std::fmt;

// A refusal and its line, from 1. No Option for a refusal of the result, which has none: hosts and `line_of`, which `assemble` promises, have 0.
#[derive(Clone, Copy, Debug, PartialEq, Eq)]
pub struct Refused {
    pub refusal: Refusal,
    pub line: u32,
}

// As the program prints it.
impl fmt::Display for Refused {
    ghost output = { λ r. Some (refused_text r) };

    fn fmt<W: fmt::Write>(&self, f: &mut fmt::Formatter<W>) -> fmt::Result {
        write!(f, "{} at line {}", self.refusal, self.line)
    }
}
