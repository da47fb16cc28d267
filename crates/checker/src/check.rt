// The marks and the verdict.
ghost use Rattle.std.specs.Prelude.{◌≡◌, ℕ, ◌≤◌, get_or, length};
ghost use Rattle.checker.specs.Verdicts.{Answers, check_refusal, is_marked, marks_size, number_of};
ghost use Rattle.checker.specs.Walk.{Packed, verdict_of};

use crate::walk::{Named, PAIRS, Walk};
use isa::ADDRESSES;
use refusals::Refusal;
use rom::reader::check_mask;

// How many mark bytes there are; today one for each address.
pub const MARKS: usize = 4096;

#[derive(Clone, Copy, Debug, PartialEq, Eq)]
pub enum Verdict {
    // No reached pair is forbidden.
    Passed,
    // The lowest forbidden reached pair.
    Failed { fault: u8, address: u16, level: u8 },
}

// The mark byte of each address: the flags of its three codes, as bits. By index: behind `marks.iter_mut().zip(..)` the proof
// knows only the marks' length.
#[tactic(auto, using(crate::proofs::Chunks::bits_at))]
fn pack(seen: &[u8; PAIRS], marks: &mut [u8])
    requires marks_len { length marks.old ≡ marks_size }
    requires by_index { (k : ℕ) → get_or seen.now k 0 ≤ 1 }
    ensures { Packed seen.now marks.new }
{
    let (addresses, _) = seen.as_chunks::<3>();
    for (address, flags) in addresses.iter().enumerate() {
        marks[address] = flags[0] + flags[1] * 2 + flags[2] * 4;
    }
}

fn judge(named: Option<Named>) -> Verdict
    ensures { result ≡ verdict_of named }
{
    match named {
        Some(lowest) => Verdict::Failed {
            fault: lowest.fault,
            address: lowest.code / 3,
            level: (lowest.code % 3) as u8,
        },
        None => Verdict::Passed,
    }
}

// Marks the pairs that chains from address 0, level 0 reach, and says whether one of them is forbidden.
pub fn check(mask: &[u8], marks: &mut [u8]) -> Result<Verdict, Refusal>
    ensures answers { Answers mask.now marks.old marks.new result }
    ensures result_value { number_of result ≡ check_refusal mask.now marks.old }
{
    check_mask(mask)?;
    if marks.len() != MARKS {
        return Err(Refusal::Buffer);
    }
    let mut walk = Walk::new();
    let named = walk.run(mask);
    pack(&walk.seen, marks);
    Ok(judge(named))
}

// Whether a pair is marked: its level's bit in the mark byte of its address. A pair out of range is not: `level` is a host's number, as in `bound_of`.
pub fn is_marked(marks: &[u8; MARKS], address: u16, level: u8) -> bool
    ensures { result ≡ is_marked marks.now address level }
{
    address < ADDRESSES && level < 3 && (marks[address as usize] >> level) % 2 == 1
}
