// The text of an instruction, and an instruction at an address.
ghost use Rattle.std.specs.Prelude.{◌≡◌, ◌+◌, ◌*◌};
ghost use Rattle.mnemonic.specs.Held.{Holds};
ghost use Rattle.mnemonic.specs.Line.{text_of};
ghost use Rattle.mnemonic.specs.Placing.{placed_at};

use crate::Text;
use crate::letters::{address, byte, digit, joined, nibble, number, plain, register};
use isa::{Condition, Instruction, Page, Pointer, Port, ProgramAddress};

// JAn: the bit's number is a digit of the first word.
#[tactic(auto, unfolding(crate::specs::Line::line_of, crate::specs::Line::text_of))]
fn bit_branch(n: u8, target: ProgramAddress) -> Text
    ensures { Holds result (text_of (Instruction.Branch target (Condition.Ja n))) }
{
    number(&[b'J', b'A', digit(n as u16), b' '], &address(target.0))
}

// A conditional branch.
#[tactic(auto, unfolding(crate::specs::Line::line_of, crate::specs::Line::text_of))]
fn branch(condition: Condition, target: ProgramAddress) -> Text
    ensures { Holds result (text_of (Instruction.Branch target condition)) }
{
    let at = address(target.0);
    match condition {
        Condition::Ja(n) => bit_branch(n, target),
        Condition::JnzR0 => number(b"JNZ R0,", &at),
        Condition::JnzR1 => number(b"JNZ R1,", &at),
        Condition::JnzR4 => number(b"JNZ R4,", &at),
        Condition::Jz => number(b"JZ A,", &at),
        Condition::JnzA => number(b"JNZ A,", &at),
        Condition::Jc => number(b"JC ", &at),
        Condition::Jnc => number(b"JNC ", &at),
        Condition::Jtmr => number(b"JTMR ", &at),
    }
}

// XX, by its nibbles.
fn xx(low: u8, high: u8) -> u16
    ensures { result ≡ 16 * high + low }
{
    16 * (high as u16) + low as u16
}

// The text of an instruction.
#[tactic(auto, unfolding(crate::specs::Line::line_of, crate::specs::Line::text_of))]
pub fn text_of(instruction: Instruction) -> Text
    ensures { Holds result (text_of instruction) }
{
    match instruction {
        Instruction::AddAM => plain(b"ADD A,[R1R0]"),
        Instruction::AdcAM => plain(b"ADC A,[R1R0]"),
        Instruction::SubAM => plain(b"SUB A,[R1R0]"),
        Instruction::SbcAM => plain(b"SBC A,[R1R0]"),
        Instruction::AddAX(d) => number(b"ADD A,", &nibble(d)),
        Instruction::SubAX(d) => number(b"SUB A,", &nibble(d)),
        Instruction::Daa => plain(b"DAA"),
        Instruction::AndAM => plain(b"AND A,[R1R0]"),
        Instruction::OrAM => plain(b"OR A,[R1R0]"),
        Instruction::XorAM => plain(b"XOR A,[R1R0]"),
        Instruction::AndMA => plain(b"AND [R1R0],A"),
        Instruction::OrMA => plain(b"OR [R1R0],A"),
        Instruction::XorMA => plain(b"XOR [R1R0],A"),
        Instruction::AndAX(d) => number(b"AND A,", &nibble(d)),
        Instruction::OrAX(d) => number(b"OR A,", &nibble(d)),
        Instruction::XorAX(d) => number(b"XOR A,", &nibble(d)),
        Instruction::IncA => plain(b"INC A"),
        Instruction::IncR(n) => register(b"INC R", n),
        Instruction::IncM(Pointer::R1R0) => plain(b"INC [R1R0]"),
        Instruction::IncM(Pointer::R3R2) => plain(b"INC [R3R2]"),
        Instruction::DecA => plain(b"DEC A"),
        Instruction::DecR(n) => register(b"DEC R", n),
        Instruction::DecM(Pointer::R1R0) => plain(b"DEC [R1R0]"),
        Instruction::DecM(Pointer::R3R2) => plain(b"DEC [R3R2]"),
        Instruction::MovAR(n) => register(b"MOV A,R", n),
        Instruction::MovRA(n) => joined(b"MOV R", &[digit(n as u16), b',', b'A']),
        Instruction::MovAM(Pointer::R1R0) => plain(b"MOV A,[R1R0]"),
        Instruction::MovAM(Pointer::R3R2) => plain(b"MOV A,[R3R2]"),
        Instruction::MovMA(Pointer::R1R0) => plain(b"MOV [R1R0],A"),
        Instruction::MovMA(Pointer::R3R2) => plain(b"MOV [R3R2],A"),
        Instruction::MovAX(d) => number(b"MOV A,", &nibble(d)),
        Instruction::MovPairXX(Pointer::R1R0, low, high) => number(
            b"MOV R1R0,",
            &byte(xx(low, high)),
        ),
        Instruction::MovPairXX(Pointer::R3R2, low, high) => number(
            b"MOV R3R2,",
            &byte(xx(low, high)),
        ),
        Instruction::MovR4X(d) => number(b"MOV R4,", &nibble(d)),
        Instruction::RlA => plain(b"RL A"),
        Instruction::RlcA => plain(b"RLC A"),
        Instruction::RrA => plain(b"RR A"),
        Instruction::RrcA => plain(b"RRC A"),
        Instruction::InA(Port::Pm) => plain(b"IN A,PM"),
        Instruction::InA(Port::Ps) => plain(b"IN A,PS"),
        Instruction::InA(Port::Pp) => plain(b"IN A,PP"),
        Instruction::OutPaA => plain(b"OUT PA,A"),
        Instruction::Jmp(t) => number(b"JMP ", &address(t.0)),
        Instruction::Branch(t, k) => branch(k, t),
        Instruction::Call(t) => number(b"CALL ", &address(t.0)),
        Instruction::Ret => plain(b"RET"),
        Instruction::Reti => plain(b"RETI"),
        Instruction::Clc => plain(b"CLC"),
        Instruction::Stc => plain(b"STC"),
        Instruction::Ei => plain(b"EI"),
        Instruction::Di => plain(b"DI"),
        Instruction::Nop => plain(b"NOP"),
        Instruction::TimerXX(x) => number(b"TIMER ", &byte(x as u16)),
        Instruction::TimerOn => plain(b"TIMER ON"),
        Instruction::TimerOff => plain(b"TIMER OFF"),
        Instruction::MovATmrl => plain(b"MOV A,TMRL"),
        Instruction::MovATmrh => plain(b"MOV A,TMRH"),
        Instruction::MovTmrlA => plain(b"MOV TMRL,A"),
        Instruction::MovTmrhA => plain(b"MOV TMRH,A"),
        Instruction::ReadR4A(Page::Current) => plain(b"READ R4A"),
        Instruction::ReadR4A(Page::F) => plain(b"READF R4A"),
        Instruction::ReadMr0A(Page::Current) => plain(b"READ MR0A"),
        Instruction::ReadMr0A(Page::F) => plain(b"READF MR0A"),
        Instruction::SoundN(d) => number(b"SOUND ", &nibble(d)),
        Instruction::SoundA => plain(b"SOUND A"),
        Instruction::SoundOne => plain(b"SOUND ONE"),
        Instruction::SoundLoop => plain(b"SOUND LOOP"),
        Instruction::SoundOff => plain(b"SOUND OFF"),
        Instruction::Halt => plain(b"HALT"),
    }
}

// The instruction as a listing shows it where the moved address is this: a conditional branch has its whole target.
#[tactic(auto, unfolding(crate::specs::Placing::placed_at, isa::specs::Views::view))]
pub fn placed(instruction: Instruction, moved: u16) -> Instruction
    ensures { result ≡ placed_at moved instruction }
{
    match instruction {
        Instruction::Branch(t, k) => {
            let at = moved / 2048 * 2048 + t.0 % 2048;
            Instruction::Branch(ProgramAddress(at), k)
        }
        _ => instruction,
    }
}
