// A text assembled: the answer as a number.
ghost use Rattle.std.specs.Prelude.{◌≡◌, ◌+◌, ◌*◌, ◌^◌};
ghost use Rattle.assembler.specs.Program.{answered, line_of, number_given};
ghost use Rattle.ht1130_tools.specs.Numbers.{Assembled};

use crate::masks::refused_at;
use assembler::assemble::assemble;
use assembler::refused::Refused;

// The script's twin has an offset for the line: neither crate of the two stands on the other, and each `Refused` prints in its own words.
fn packed(answer: Result<(), Refused>) -> u64
    ensures { result ≡ number_given answer + line_of answer * 2 ^ 32 }
{
    match answer {
        Ok(()) => 0,
        Err(refused) => refused_at(refused.refusal, refused.line),
    }
}

pub fn ht1130_assemble(text: &[u8], out: &mut [u8]) -> u64
    ensures { Assembled (answered text.now out.old) out.old out.new result }
{
    packed(assemble(text, out))
}
