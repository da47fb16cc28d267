// Instructions as numbers, for hosts in other languages: an instruction is a form and two operands, and an answer is one number.
#![tactic(auto)]

mod names;
mod numbers;

ghost use Rattle.std.specs.Prelude.{◌≡◌};
ghost use Rattle.rom.specs.Fetching.{fetching};
ghost use Rattle.rom.specs.Writing.{answer_of};
ghost use Rattle.abi.specs.Answers.{packed_bytes, packed_named, read_number, write_number, writing_of};
ghost use Rattle.abi.specs.Forms.{numbers_of};

use crate::names::instruction_of;
use crate::numbers::numbers_of;
use isa::{Instruction, ProgramAddress};
use refusals::Refusal;
use rom::encoder::{Written, encode};
use rom::reader::read_at;

// What was read, as eight bytes, lowest first: a refusal and a fault, which are 0, the form, a, b in two, the length and the cycles.
fn pack(instruction: Instruction, length: u8, cycles: u8) -> u64
    ensures { result ≡ packed_named (numbers_of instruction) length cycles }
{
    let numbers = numbers_of(instruction);
    let [low, high] = numbers.b.to_le_bytes();
    u64::from_le_bytes([
        0, // no refusal
        0, // no fault
        numbers.form,
        numbers.a,
        low,
        high,
        length,
        cycles,
    ])
}

// What was written, lowest byte first: no refusal, how many bytes, the first and the second.
fn pack_bytes(count: u8, first: u8, second: u8) -> u64
    ensures { result ≡ packed_bytes 0 count first second }
{
    u64::from_le_bytes([0, count, first, second, 0, 0, 0, 0])
}

// The instruction at an address of a mask, as one number.
pub fn read(mask: &[u8], address: u16) -> u64
    ensures { result ≡ read_number (fetching mask.now address) }
{
    match read_at(mask, ProgramAddress(address)) {
        Ok(Some(fetched)) => pack(fetched.instruction, fetched.length, fetched.cycles),
        Ok(None) => 0x100, // fault 1
        Err(refusal) => u8::from(refusal) as u64,
    }
}

// What the numbers do not name is refused as a field outside its pattern is.
fn written(form: u8, a: u8, b: u16) -> Result<Written, Refusal>
    ensures { answer_of result ≡ writing_of form a b }
{
    encode(instruction_of(form, a, b).ok_or(Refusal::Value)?)
}

// The bytes of the instruction that a form and its operands name, as one number.
pub fn write(form: u8, a: u8, b: u16) -> u64
    ensures { result ≡ write_number (writing_of form a b) }
{
    match written(form, a, b) {
        Ok(Written::One(first)) => pack_bytes(1, first, 0),
        Ok(Written::Two(first, second)) => pack_bytes(2, first, second),
        Err(refusal) => u8::from(refusal) as u64,
    }
}
