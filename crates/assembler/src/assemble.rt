// The whole of it: text to the 4,096 bytes of a mask.
ghost use Rattle.std.specs.Prelude.{◌≡◌, false, ◌≤◌, length, replicate};
ghost use Rattle.assembler.specs.Forms.{rom_size};
ghost use Rattle.assembler.specs.Program.{Answered, answer_to, answered, end, first, line_of, mislabelled, program, start};
ghost use Rattle.assembler.specs.Passing.{Placed, Resolved, Settled};

use crate::passes::{check_labels, check_values, place_lines, read_lines, write_lines};
use crate::refused::Refused;
use isa::PLACES;
use operand::labels::Labels;
use refusals::Refusal;
use rom::reader::MASK;

// The labels are checked, and given their addresses. No struct has what is settled, and then placed, for its invariant: the tables are
// lent, and a pass between both still writes the addresses.
fn resolved(
    text: &[u8],
    starts: &[u16],
    addresses: &mut [u16],
    used: &mut [bool],
) -> Result<(), Refused>
    requires settled { Settled text.now starts.now addresses.old (length starts.now) }
    requires unused { used.old ≡ replicate rom_size false }
    ensures found { Resolved (program text.now) result }
    ensures placed { line_of result ≡ 0 → Placed text.now starts.now addresses.new (length starts.now) }
{
    check_labels(Labels {
        text,
        starts,
        addresses,
    })?;
    place_lines(text, starts, addresses, used)
}

// The values are checked, and the bytes written.
fn written(labels: Labels, out: &mut [u8]) -> Result<(), Refused>
    requires placed { Placed labels.text.now labels.starts.now labels.addresses.now (length labels.starts.now) }
    requires labelled { first (mislabelled (end start (program labels.text.now)).names) start 1 (program labels.text.now) ≡ 0 }
    requires sized { length out.old ≡ rom_size }
    ensures { Answered (answer_to (program labels.entry.text.now)) out.old result out.new }
{
    check_values(labels)?;
    out.fill(0x3e);
    write_lines(labels, out);
    Ok(())
}

// A text that is not too long: the passes in their order, and then the bytes. Tables are lent: the labels' places and addresses, and which
// addresses are written.
fn judged(
    text: &[u8],
    starts: &mut [u16],
    addresses: &mut [u16],
    used: &mut [bool],
    out: &mut [u8],
) -> Result<(), Refused>
    requires sizes { (length text.now ≤ 65535) × (length out.old ≡ rom_size) }
    requires tables { (length starts.old ≡ 32768) × (length addresses.old ≡ 32768) × (used.old ≡ replicate rom_size false) }
    ensures { Answered (answer_to (program text.now)) out.old result out.new }
{
    let count = read_lines(text, starts)?;
    resolved(text, &starts[..count], addresses, used)?;
    let labels = Labels {
        text,
        starts: &starts[..count],
        addresses,
    };
    written(labels, out)
}

// Assembles a text: the bytes of a mask, or a refusal that leaves the result as it was.
pub fn assemble(text: &[u8], out: &mut [u8]) -> Result<(), Refused>
    ensures { Answered (answered text.now out.old) out.old result out.new }
{
    if out.len() != MASK {
        return Err(Refused {
            refusal: Refusal::Buffer,
            line: 0,
        });
    }
    if text.len() > 65535 {
        return Err(Refused {
            refusal: Refusal::Line,
            line: 1,
        });
    }
    // a label and its colon take two characters at least, so a text has no more than these
    let mut starts = [0u16; 32768];
    let mut addresses = [0u16; 32768];
    let mut used = [false; PLACES];
    judged(text, &mut starts, &mut addresses, &mut used, out)
}
