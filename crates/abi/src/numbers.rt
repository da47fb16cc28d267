// From an instruction to its form and operands.
ghost use Rattle.std.specs.Prelude.{◌≡◌};
ghost use Rattle.abi.specs.Forms.{condition_number, fields, numbers_of, page_number, pointer_number, port_number};

use isa::{Condition, Instruction, Page, Pointer, Port};

// A form and its operands.
#[derive(Clone, Copy, Debug, PartialEq, Eq)]
pub struct Numbers {
    pub form: u8,
    pub a: u8,
    pub b: u16,
}

fn pointer_number(pointer: Pointer) -> u8
    ensures { result ≡ pointer_number pointer }
{
    match pointer {
        Pointer::R1R0 => 0,
        Pointer::R3R2 => 1,
    }
}

fn port_number(port: Port) -> u8
    ensures { result ≡ port_number port }
{
    match port {
        Port::Pm => 0,
        Port::Ps => 1,
        Port::Pp => 2,
    }
}

fn page_number(page: Page) -> u8
    ensures { result ≡ page_number page }
{
    match page {
        Page::Current => 0,
        Page::F => 1,
    }
}

// The five leading bits of a branch's code, less 16.
fn condition_number(condition: Condition) -> u8
    ensures { result ≡ condition_number condition }
{
    match condition {
        Condition::Ja(n) => n,
        Condition::JnzR0 => 4,
        Condition::JnzR1 => 5,
        Condition::Jz => 6,
        Condition::JnzA => 7,
        Condition::Jc => 8,
        Condition::Jnc => 9,
        Condition::Jtmr => 10,
        Condition::JnzR4 => 11,
    }
}

// The form and operands of an instruction; an operand that the form does not have is 0.
#[tactic(auto, unfolding(crate::specs::Forms::numbers_of))]
pub(crate) fn numbers_of(instruction: Instruction) -> Numbers
    ensures { fields result ≡ numbers_of instruction }
{
    let (form, a, b) = match instruction {
        Instruction::AddAM => (0, 0, 0),
        Instruction::AdcAM => (1, 0, 0),
        Instruction::SubAM => (2, 0, 0),
        Instruction::SbcAM => (3, 0, 0),
        Instruction::AddAX(d) => (4, d, 0),
        Instruction::SubAX(d) => (5, d, 0),
        Instruction::Daa => (6, 0, 0),
        Instruction::AndAM => (7, 0, 0),
        Instruction::OrAM => (8, 0, 0),
        Instruction::XorAM => (9, 0, 0),
        Instruction::AndMA => (10, 0, 0),
        Instruction::OrMA => (11, 0, 0),
        Instruction::XorMA => (12, 0, 0),
        Instruction::AndAX(d) => (13, d, 0),
        Instruction::OrAX(d) => (14, d, 0),
        Instruction::XorAX(d) => (15, d, 0),
        Instruction::IncA => (16, 0, 0),
        Instruction::IncR(n) => (17, n, 0),
        Instruction::IncM(p) => (18, pointer_number(p), 0),
        Instruction::DecA => (19, 0, 0),
        Instruction::DecR(n) => (20, n, 0),
        Instruction::DecM(p) => (21, pointer_number(p), 0),
        Instruction::MovAR(n) => (22, n, 0),
        Instruction::MovRA(n) => (23, n, 0),
        Instruction::MovAM(p) => (24, pointer_number(p), 0),
        Instruction::MovMA(p) => (25, pointer_number(p), 0),
        Instruction::MovAX(d) => (26, d, 0),
        Instruction::MovPairXX(p, low, high) => (
            27,
            pointer_number(p),
            16 * high as u16 + low as u16,
        ),
        Instruction::MovR4X(d) => (28, d, 0),
        Instruction::RlA => (29, 0, 0),
        Instruction::RlcA => (30, 0, 0),
        Instruction::RrA => (31, 0, 0),
        Instruction::RrcA => (32, 0, 0),
        Instruction::InA(p) => (33, port_number(p), 0),
        Instruction::OutPaA => (34, 0, 0),
        Instruction::Jmp(t) => (35, 0, t.0),
        Instruction::Branch(t, c) => (36, condition_number(c), t.0),
        Instruction::Call(t) => (37, 0, t.0),
        Instruction::Ret => (38, 0, 0),
        Instruction::Reti => (39, 0, 0),
        Instruction::Clc => (40, 0, 0),
        Instruction::Stc => (41, 0, 0),
        Instruction::Ei => (42, 0, 0),
        Instruction::Di => (43, 0, 0),
        Instruction::Nop => (44, 0, 0),
        Instruction::TimerXX(x) => (45, x, 0),
        Instruction::TimerOn => (46, 0, 0),
        Instruction::TimerOff => (47, 0, 0),
        Instruction::MovATmrl => (48, 0, 0),
        Instruction::MovATmrh => (49, 0, 0),
        Instruction::MovTmrlA => (50, 0, 0),
        Instruction::MovTmrhA => (51, 0, 0),
        Instruction::ReadR4A(p) => (52, page_number(p), 0),
        Instruction::ReadMr0A(p) => (53, page_number(p), 0),
        Instruction::SoundN(n) => (54, n, 0),
        Instruction::SoundA => (55, 0, 0),
        Instruction::SoundOne => (56, 0, 0),
        Instruction::SoundLoop => (57, 0, 0),
        Instruction::SoundOff => (58, 0, 0),
        Instruction::Halt => (59, 0, 0),
    };
    Numbers { form, a, b }
}
