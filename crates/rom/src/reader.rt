// Reading at an address of a mask (document 01's word for the 4,096 bytes of a panel's ROM).
ghost use Rattle.std.specs.Prelude.{◌≡◌};
ghost use Rattle.isa.specs.Choice.{pick};
ghost use Rattle.refusals.specs.Numbers.{refusal_of};
ghost use Rattle.rom.specs.Fetching.{answer_of, byte_at, code_at, fetching, moved_by, sized};

use crate::timing::{cycles, length};
use isa::decoder::decode;
use isa::{ADDRESSES, Instruction, PLACES, ProgramAddress};
use refusals::Refusal;

// How many bytes a mask has: one for each address.
pub const MASK: usize = PLACES;

// The two bytes that the decoder takes.
#[derive(Clone, Copy)]
pub struct Code {
    pub first: u8,
    pub second: u8,
}

// An instruction at an address of a mask, with its length and cycles.
#[derive(Clone, Copy, Debug, PartialEq, Eq)]
pub struct Fetched {
    pub instruction: Instruction,
    pub length: u8,
    pub cycles: u8,
}

// The one test of a mask's length: refusal 1 is the answer where this is false.
#[tactic(auto, unfolding(crate::specs::Fetching::sized))]
pub fn mask_ok(mask: &[u8]) -> bool
    ensures { result ≡ sized mask.now }
{
    mask.len() == MASK
}

// The same test as a refusal, for a function that refuses.
pub fn check_mask(mask: &[u8]) -> Result<(), Refusal>
    ensures { refusal_of result ≡ pick (sized mask.now) 0 1 }
{
    if !mask_ok(mask) {
        return Err(Refusal::Mask);
    }
    Ok(())
}

// The byte at an address: the one after FFFh is the one at 0. A byte past the end of a mask reads 0.
pub fn byte_at(mask: &[u8], at: u16) -> u8
    ensures { result ≡ byte_at mask.now at }
{
    let i = (at % ADDRESSES) as usize;
    if i < mask.len() {
        return mask[i];
    }
    0
}

// The code at an address: everyone who reads a mask fetches here.
#[tactic(auto, unfolding(crate::specs::Fetching::code_at))]
pub fn code_at(mask: &[u8], at: u16) -> Code
    ensures { result ≡ code_at mask.now at }
{
    let i = at % ADDRESSES;
    Code {
        first: byte_at(mask, i),
        second: byte_at(mask, i + 1),
    }
}

// The moved address. One out of range counts as what is left of it modulo 4,096.
pub fn moved_by(at: u16, length: u8) -> u16
    ensures { result ≡ moved_by length at }
{
    (at % ADDRESSES + length as u16) % ADDRESSES
}

// What stands at an address: none where the bytes read as no instruction.
pub fn read_at(mask: &[u8], address: ProgramAddress) -> Result<Option<Fetched>, Refusal>
    ensures { answer_of result ≡ fetching mask.now address.0 }
{
    check_mask(mask)?;
    let at = address.0;
    if ADDRESSES <= at {
        return Err(Refusal::Range);
    }
    let code = code_at(mask, at);
    let Some(instruction) = decode(code.first, code.second) else {
        return Ok(None);
    };
    Ok(Some(Fetched {
        instruction,
        length: length(code.first),
        cycles: cycles(code.first),
    }))
}
