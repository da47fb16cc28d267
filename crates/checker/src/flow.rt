// Where what stands at an address hands the program on: by runs of first bytes, with no decoder. Its answer, written byte by byte and read back at
// once, stalls the processor.
ghost use Rattle.std.specs.Prelude.{◌≡◌, ◌/◌};
ghost use Rattle.isa.specs.Reading.{decoded};
ghost use Rattle.checker.specs.Marks.{flow_at, flow_read, levels};

use isa::ProgramAddress;
use rom::reader::code_at;

#[derive(Clone, Copy)]
pub enum Flow {
    // Nowhere: the bytes read as no instruction.
    Unread,
    // To the moved address.
    On,
    // EI: also to the vectors 4 and 8 in level 2.
    Enable,
    // JMP: only to its target.
    Jump(ProgramAddress),
    // A branch: also to its target, whose bit 11 is the moved address's.
    To(ProgramAddress),
    // CALL: to its target in level 1, and on.
    Sub(ProgramAddress),
    // RET and RETI.
    Back,
}

// The flow of two bytes. No helper that returns an enum: its copy would go through memory. The tests go as those of the length do, so that the
// compiler can make one chain of both.
#[tactic(auto, using(crate::proofs::Flows::by_runs))]
pub(crate) fn flow_by(first: u8, second: u8) -> Flow
    ensures { result ≡ flow_read (decoded first second) }
{
    if 0x7f < first {
        if first < 0xe0 {
            return Flow::To(ProgramAddress((first % 8) as u16 * 256 + second as u16));
        }
        if first < 0xf0 {
            return Flow::Jump(ProgramAddress((first % 16) as u16 * 256 + second as u16));
        }
        return Flow::Sub(ProgramAddress((first % 16) as u16 * 256 + second as u16));
    }
    if first < 0x35 {
        if first < 0x2c {
            return Flow::On;
        }
        if first == 0x2c {
            return Flow::Enable; // EI
        }
        if first == 0x2d {
            return Flow::On; // DI
        }
        if first < 0x30 {
            return Flow::Back; // RET, RETI
        }
        return Flow::On;
    }
    if first < 0x38 {
        if first == 0x35 {
            return Flow::Unread;
        }
        if first == 0x36 {
            return Flow::On; // DAA
        }
        if second == 0x3e {
            return Flow::On; // HALT
        }
        return Flow::Unread;
    }
    if first < 0x40 {
        return Flow::On;
    }
    if first < 0x48 {
        if first == 0x47 {
            return Flow::On; // TIMER's byte follows
        }
        if second < 16 {
            return Flow::On; // a nibble follows
        }
        return Flow::Unread;
    }
    if first < 0x50 {
        return Flow::On; // SOUND, READ
    }
    if first < 0x70 {
        if second < 16 {
            return Flow::On; // MOV R1R0 and MOV R3R2
        }
        return Flow::Unread;
    }
    Flow::On // MOV A,XH
}

// The flow of what stands at the address of a pair's code.
pub fn flow_at(mask: &[u8], code: u16) -> Flow
    ensures { result ≡ flow_at mask.now (code / levels) }
{
    let bytes = code_at(mask, code / 3);
    flow_by(bytes.first, bytes.second)
}
