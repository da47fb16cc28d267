// An instruction, written as its bytes.
ghost use Rattle.std.specs.Prelude.{◌≡◌, [], ◌∷◌, ◌+◌, ◌*◌, ◌/◌, ◌%◌, ltb, ◌&&◌, ◌<◌, ◌≤◌};
ghost use Rattle.isa.specs.Choice.{pick};
ghost use Rattle.isa.specs.Code.{addresses};
ghost use Rattle.refusals.specs.Numbers.{refusal_of};
ghost use Rattle.rom.specs.Writing.{answer_of, fitting, writing};

use isa::{ADDRESSES, Condition, Instruction, Page, Pointer, Port, ProgramAddress};
use refusals::Refusal;

// The bytes of an instruction.
#[derive(Clone, Copy, Debug, PartialEq, Eq)]
pub enum Written {
    One(u8),
    Two(u8, u8),
}

// Refusal 3, of a field outside its pattern, where it does not fit.
fn check_field(fits: bool) -> Result<(), Refusal>
    ensures { refusal_of result ≡ pick fits 0 3 }
{
    if fits { Ok(()) } else { Err(Refusal::Value) }
}

// A register's number in bits 1 to 3. `code < 128` stands here and twice below: each caller hands a constant, and a type would be no plainer.
fn with_register(code: u8, n: u8) -> Result<Written, Refusal>
    requires { code < 128 }
    ensures { answer_of result ≡ fitting (ltb n 5) ((code + 2 * n) ∷ []) }
{
    check_field(n < 5)?;
    Ok(Written::One(code + 2 * n))
}

// A nibble in the first byte.
fn with_low_nibble(code: u8, d: u8) -> Result<Written, Refusal>
    requires { code < 128 }
    ensures { answer_of result ≡ fitting (ltb d 16) ((code + d) ∷ []) }
{
    check_field(d < 16)?;
    Ok(Written::One(code + d))
}

// A nibble in the second byte.
fn with_nibble(code: u8, d: u8) -> Result<Written, Refusal>
    ensures { answer_of result ≡ fitting (ltb d 16) (code ∷ d ∷ []) }
{
    check_field(d < 16)?;
    Ok(Written::Two(code, d))
}

// One nibble in each byte.
fn with_nibbles(code: u8, low: u8, high: u8) -> Result<Written, Refusal>
    requires { code < 128 }
    ensures { answer_of result ≡ fitting (ltb low 16 && ltb high 16) ((code + low) ∷ high ∷ []) }
{
    check_field(low < 16)?;
    check_field(high < 16)?;
    Ok(Written::Two(code + low, high))
}

// An address below limit, its high part in the first byte: by `/` and `%`, since the high part is added to the code's bits.
fn with_address(code: u8, limit: u16, target: ProgramAddress) -> Result<Written, Refusal>
    requires { (code < 241) × (limit ≤ addresses) }
    ensures { answer_of result ≡ fitting (ltb target.0 limit) ((code + target.0 / 256) ∷ (target.0 % 256) ∷ []) }
{
    let at = target.0;
    check_field(at < limit)?;
    Ok(Written::Two(code + (at / 256) as u8, (at % 256) as u8))
}

// A branch: five leading bits, then eleven bits of its target.
#[tactic(auto, unfolding(isa::specs::Code::bytes_of, isa::specs::Code::in_range, isa::specs::Code::leading, isa::specs::Code::bit_in_range))]
fn with_condition(condition: Condition, target: ProgramAddress) -> Result<Written, Refusal>
    ensures { answer_of result ≡ writing (Instruction.Branch target condition) }
{
    let leading = match condition {
        Condition::Ja(n) => {
            check_field(n < 4)?;
            0x80 + 8 * n
        }
        Condition::JnzR0 => 0xa0,
        Condition::JnzR1 => 0xa8,
        Condition::Jz => 0xb0,
        Condition::JnzA => 0xb8,
        Condition::Jc => 0xc0,
        Condition::Jnc => 0xc8,
        Condition::Jtmr => 0xd0,
        Condition::JnzR4 => 0xd8,
    };
    with_address(leading, 2048, target)
}

// The bytes of an instruction, or the refusal of a field outside its pattern.
#[tactic(auto, unfolding(isa::specs::Code::bytes_of, isa::specs::Code::in_range))]
pub fn encode(instruction: Instruction) -> Result<Written, Refusal>
    ensures { answer_of result ≡ writing instruction }
{
    match instruction {
        Instruction::AddAM => Ok(Written::One(0x09)),
        Instruction::AdcAM => Ok(Written::One(0x08)),
        Instruction::SubAM => Ok(Written::One(0x0b)),
        Instruction::SbcAM => Ok(Written::One(0x0a)),
        Instruction::AddAX(d) => with_nibble(0x40, d),
        Instruction::SubAX(d) => with_nibble(0x41, d),
        Instruction::Daa => Ok(Written::One(0x36)),
        Instruction::AndAM => Ok(Written::One(0x1a)),
        Instruction::OrAM => Ok(Written::One(0x1c)),
        Instruction::XorAM => Ok(Written::One(0x1b)),
        Instruction::AndMA => Ok(Written::One(0x1d)),
        Instruction::OrMA => Ok(Written::One(0x1f)),
        Instruction::XorMA => Ok(Written::One(0x1e)),
        Instruction::AndAX(d) => with_nibble(0x42, d),
        Instruction::OrAX(d) => with_nibble(0x44, d),
        Instruction::XorAX(d) => with_nibble(0x43, d),
        Instruction::IncA => Ok(Written::One(0x31)),
        Instruction::IncR(n) => with_register(0x10, n),
        Instruction::IncM(Pointer::R1R0) => Ok(Written::One(0x0c)),
        Instruction::IncM(Pointer::R3R2) => Ok(Written::One(0x0e)),
        Instruction::DecA => Ok(Written::One(0x3f)),
        Instruction::DecR(n) => with_register(0x11, n),
        Instruction::DecM(Pointer::R1R0) => Ok(Written::One(0x0d)),
        Instruction::DecM(Pointer::R3R2) => Ok(Written::One(0x0f)),
        Instruction::MovAR(n) => with_register(0x21, n),
        Instruction::MovRA(n) => with_register(0x20, n),
        Instruction::MovAM(Pointer::R1R0) => Ok(Written::One(0x04)),
        Instruction::MovAM(Pointer::R3R2) => Ok(Written::One(0x06)),
        Instruction::MovMA(Pointer::R1R0) => Ok(Written::One(0x05)),
        Instruction::MovMA(Pointer::R3R2) => Ok(Written::One(0x07)),
        Instruction::MovAX(d) => with_low_nibble(0x70, d),
        Instruction::MovPairXX(Pointer::R1R0, low, high) => with_nibbles(0x50, low, high),
        Instruction::MovPairXX(Pointer::R3R2, low, high) => with_nibbles(0x60, low, high),
        Instruction::MovR4X(d) => with_nibble(0x46, d),
        Instruction::RlA => Ok(Written::One(0x01)),
        Instruction::RlcA => Ok(Written::One(0x03)),
        Instruction::RrA => Ok(Written::One(0x00)),
        Instruction::RrcA => Ok(Written::One(0x02)),
        Instruction::InA(Port::Pm) => Ok(Written::One(0x32)),
        Instruction::InA(Port::Ps) => Ok(Written::One(0x33)),
        Instruction::InA(Port::Pp) => Ok(Written::One(0x34)),
        Instruction::OutPaA => Ok(Written::One(0x30)),
        Instruction::Jmp(t) => with_address(0xe0, ADDRESSES, t),
        Instruction::Branch(t, k) => with_condition(k, t),
        Instruction::Call(t) => with_address(0xf0, ADDRESSES, t),
        Instruction::Ret => Ok(Written::One(0x2e)),
        Instruction::Reti => Ok(Written::One(0x2f)),
        Instruction::Clc => Ok(Written::One(0x2a)),
        Instruction::Stc => Ok(Written::One(0x2b)),
        Instruction::Ei => Ok(Written::One(0x2c)),
        Instruction::Di => Ok(Written::One(0x2d)),
        Instruction::Nop => Ok(Written::One(0x3e)),
        Instruction::TimerXX(x) => Ok(Written::Two(0x47, x)),
        Instruction::TimerOn => Ok(Written::One(0x38)),
        Instruction::TimerOff => Ok(Written::One(0x39)),
        Instruction::MovATmrl => Ok(Written::One(0x3a)),
        Instruction::MovATmrh => Ok(Written::One(0x3b)),
        Instruction::MovTmrlA => Ok(Written::One(0x3c)),
        Instruction::MovTmrhA => Ok(Written::One(0x3d)),
        Instruction::ReadR4A(Page::Current) => Ok(Written::One(0x4c)),
        Instruction::ReadR4A(Page::F) => Ok(Written::One(0x4d)),
        Instruction::ReadMr0A(Page::Current) => Ok(Written::One(0x4e)),
        Instruction::ReadMr0A(Page::F) => Ok(Written::One(0x4f)),
        Instruction::SoundN(n) => with_nibble(0x45, n),
        Instruction::SoundA => Ok(Written::One(0x4b)),
        Instruction::SoundOne => Ok(Written::One(0x48)),
        Instruction::SoundLoop => Ok(Written::One(0x49)),
        Instruction::SoundOff => Ok(Written::One(0x4a)),
        Instruction::Halt => Ok(Written::Two(0x37, 0x3e)),
    }
}
