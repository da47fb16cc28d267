// Lengths and cycles by a rule on the first byte: no list of 256 entries for a linker to place (document 02, wish 3). The engine asks by the
// instruction: there the compiler knows it, and the answer is a constant.
ghost use Rattle.std.specs.Prelude.{◌≡◌, ◌+◌, ◌*◌, get_or};
ghost use Rattle.isa.specs.Timing.{columns_of, cycles_of, entries, length_of};

use isa::Instruction;

// The columns of document 01's list.
#[derive(Clone, Copy, Debug, PartialEq, Eq)]
pub struct Timing {
    pub bytes: u8,
    pub cycles: u8,
}

const NO_PATTERN: Timing = Timing {
    bytes: 0,
    cycles: 0,
};

const ONE_BYTE: Timing = Timing {
    bytes: 1,
    cycles: 1,
};

const READ: Timing = Timing {
    bytes: 1,
    cycles: 2,
};

const TWO_BYTES: Timing = Timing {
    bytes: 2,
    cycles: 2,
};

// The list's entry for a first byte: the two long runs first, then upwards. Comparisons, since a `match` can be compiled to a list.
pub fn entry(first: u8) -> Timing
    ensures bytes { result.bytes ≡ length_of first }
    ensures cycles { result.cycles ≡ cycles_of first }
    ensures listed { 16 * result.bytes + result.cycles ≡ get_or entries first 0 }
{
    if 0x7f < first {
        return TWO_BYTES; // branches, JMP, CALL
    }
    if first < 0x35 {
        return ONE_BYTE;
    }
    if first < 0x38 {
        if first == 0x35 {
            return NO_PATTERN;
        }
        if first == 0x36 {
            return ONE_BYTE; // DAA
        }
        return TWO_BYTES; // HALT
    }
    if first < 0x40 {
        return ONE_BYTE;
    }
    if first < 0x48 {
        return TWO_BYTES; // a nibble follows, or TIMER's byte
    }
    if first < 0x4c {
        return ONE_BYTE; // SOUND
    }
    if first < 0x50 {
        return READ;
    }
    if first < 0x70 {
        return TWO_BYTES; // MOV R1R0 and MOV R3R2
    }
    ONE_BYTE // MOV A,XH
}

// How many bytes an instruction with this first byte has.
pub fn length(first: u8) -> u8
    ensures { result ≡ length_of first }
{
    entry(first).bytes
}

// How many cycles it takes.
pub fn cycles(first: u8) -> u8
    ensures { result ≡ cycles_of first }
{
    entry(first).cycles
}

// How many bytes an instruction has.
#[tactic(auto, unfolding(isa::specs::Timing::columns_of))]
pub fn length_of(instruction: Instruction) -> u8
    ensures { result ≡ (columns_of instruction).bytes }
{
    match instruction {
        Instruction::AddAX(_)
        | Instruction::SubAX(_)
        | Instruction::AndAX(_)
        | Instruction::OrAX(_)
        | Instruction::XorAX(_)
        | Instruction::MovPairXX(_, _, _)
        | Instruction::MovR4X(_)
        | Instruction::Jmp(_)
        | Instruction::Branch(_, _)
        | Instruction::Call(_)
        | Instruction::TimerXX(_)
        | Instruction::SoundN(_)
        | Instruction::Halt => 2,
        _ => 1,
    }
}

// How many cycles it takes: a cycle for each byte, and the table reads one more.
#[tactic(auto, unfolding(isa::specs::Timing::columns_of))]
pub fn cycles_of(instruction: Instruction) -> u8
    ensures { result ≡ (columns_of instruction).cycles }
{
    match instruction {
        Instruction::ReadR4A(_) | Instruction::ReadMr0A(_) => 2,
        _ => length_of(instruction),
    }
}
