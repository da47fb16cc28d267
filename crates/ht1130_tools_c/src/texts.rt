// A text assembled, for C.
ghost use Rattle.assembler.specs.Program.{answered};
ghost use Rattle.ht1130_tools.specs.Numbers.{Assembled};

use ht1130_tools::texts;

#[unsafe(no_mangle)]
pub extern "C" fn ht1130_assemble(text: &[u8], out: &mut [u8]) -> u64
    ensures { Assembled (answered text.now out.old) out.old out.new result }
{
    texts::ht1130_assemble(text, out)
}
