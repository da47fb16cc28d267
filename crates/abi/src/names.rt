// From a form and its operands to an instruction.
ghost use Rattle.std.specs.Prelude.{◌≡◌};
ghost use Rattle.abi.specs.Forms.{conditions, listed, named, pages, pair_named, pointers, ports};

use isa::{Condition, Instruction, Page, Pointer, Port, ProgramAddress};

// These and their inverses in `numbers` are functions and no conversions of isa's types: the numbers are this interface's own, and another crate's
// types take no impl here.
fn pointer(a: u8) -> Option<Pointer>
    ensures { result ≡ listed pointers a }
{
    match a {
        0 => Some(Pointer::R1R0),
        1 => Some(Pointer::R3R2),
        _ => None,
    }
}

fn port(a: u8) -> Option<Port>
    ensures { result ≡ listed ports a }
{
    match a {
        0 => Some(Port::Pm),
        1 => Some(Port::Ps),
        2 => Some(Port::Pp),
        _ => None,
    }
}

fn page(a: u8) -> Option<Page>
    ensures { result ≡ listed pages a }
{
    match a {
        0 => Some(Page::Current),
        1 => Some(Page::F),
        _ => None,
    }
}

// What a branch tests.
fn condition(a: u8) -> Option<Condition>
    ensures { result ≡ listed conditions a }
{
    match a {
        0 => Some(Condition::Ja(0)),
        1 => Some(Condition::Ja(1)),
        2 => Some(Condition::Ja(2)),
        3 => Some(Condition::Ja(3)),
        4 => Some(Condition::JnzR0),
        5 => Some(Condition::JnzR1),
        6 => Some(Condition::Jz),
        7 => Some(Condition::JnzA),
        8 => Some(Condition::Jc),
        9 => Some(Condition::Jnc),
        10 => Some(Condition::Jtmr),
        11 => Some(Condition::JnzR4),
        _ => None,
    }
}

// MOV pair,XX: a names the pair, b is XX.
#[tactic(auto, unfolding(crate::specs::Forms::pair_named))]
fn mov_pair(a: u8, b: u16) -> Option<Instruction>
    ensures { result ≡ pair_named a b }
{
    let xx = u8::try_from(b).ok()?;
    Some(Instruction::MovPairXX(pointer(a)?, xx % 16, xx / 16))
}

// The instruction that a form and its operands name, an operand that the form does not have not being looked at.
#[tactic(auto, unfolding(crate::specs::Forms::named, crate::specs::Forms::forms, crate::specs::Forms::branch_named))]
pub(crate) fn instruction_of(form: u8, a: u8, b: u16) -> Option<Instruction>
    ensures { result ≡ named form a b }
{
    Some(match form {
        0 => Instruction::AddAM,
        1 => Instruction::AdcAM,
        2 => Instruction::SubAM,
        3 => Instruction::SbcAM,
        4 => Instruction::AddAX(a),
        5 => Instruction::SubAX(a),
        6 => Instruction::Daa,
        7 => Instruction::AndAM,
        8 => Instruction::OrAM,
        9 => Instruction::XorAM,
        10 => Instruction::AndMA,
        11 => Instruction::OrMA,
        12 => Instruction::XorMA,
        13 => Instruction::AndAX(a),
        14 => Instruction::OrAX(a),
        15 => Instruction::XorAX(a),
        16 => Instruction::IncA,
        17 => Instruction::IncR(a),
        18 => Instruction::IncM(pointer(a)?),
        19 => Instruction::DecA,
        20 => Instruction::DecR(a),
        21 => Instruction::DecM(pointer(a)?),
        22 => Instruction::MovAR(a),
        23 => Instruction::MovRA(a),
        24 => Instruction::MovAM(pointer(a)?),
        25 => Instruction::MovMA(pointer(a)?),
        26 => Instruction::MovAX(a),
        27 => return mov_pair(a, b),
        28 => Instruction::MovR4X(a),
        29 => Instruction::RlA,
        30 => Instruction::RlcA,
        31 => Instruction::RrA,
        32 => Instruction::RrcA,
        33 => Instruction::InA(port(a)?),
        34 => Instruction::OutPaA,
        35 => Instruction::Jmp(ProgramAddress(b)),
        36 => Instruction::Branch(ProgramAddress(b), condition(a)?),
        37 => Instruction::Call(ProgramAddress(b)),
        38 => Instruction::Ret,
        39 => Instruction::Reti,
        40 => Instruction::Clc,
        41 => Instruction::Stc,
        42 => Instruction::Ei,
        43 => Instruction::Di,
        44 => Instruction::Nop,
        45 => Instruction::TimerXX(a),
        46 => Instruction::TimerOn,
        47 => Instruction::TimerOff,
        48 => Instruction::MovATmrl,
        49 => Instruction::MovATmrh,
        50 => Instruction::MovTmrlA,
        51 => Instruction::MovTmrhA,
        52 => Instruction::ReadR4A(page(a)?),
        53 => Instruction::ReadMr0A(page(a)?),
        54 => Instruction::SoundN(a),
        55 => Instruction::SoundA,
        56 => Instruction::SoundOne,
        57 => Instruction::SoundLoop,
        58 => Instruction::SoundOff,
        59 => Instruction::Halt,
        _ => return None,
    })
}
