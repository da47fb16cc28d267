// The checker's verdict, the way to what it names, and the bound of a pair, as numbers.
ghost use Rattle.std.specs.Prelude.{◌≡◌, ◌+◌, ◌*◌, ◌^◌};
ghost use Rattle.checker.specs.Marks.{pair};
ghost use Rattle.refusals.specs.Numbers.{number_of};
ghost use Rattle.ht1130_tools.specs.Numbers.{BoundTold, Checks, Ways, bound_number, verdict_number, way_number};

use bound::bound::{Bound, bound_of};
use checker::check::{Verdict, check};
use checker::way::way;
use refusals::Refusal;

// Bytes 1, 2, and 4 with 5.
fn failed(fault: u8, address: u16, level: u8) -> u64
    ensures { result ≡ fault * 2 ^ 8 + level * 2 ^ 16 + address * 2 ^ 32 }
{
    let [low, high] = address.to_le_bytes();
    u64::from_le_bytes([0, fault, level, 0, low, high, 0, 0])
}

// Byte 0.
pub(crate) fn refused(refusal: Refusal) -> u64
    ensures { result ≡ number_of refusal }
{
    u64::from(u8::from(refusal))
}

// Byte 0, and 4 to 7: where a script or a text is refused.
pub(crate) fn refused_at(refusal: Refusal, place: u32) -> u64
    ensures { result ≡ number_of refusal + place * 2 ^ 32 }
{
    let [a, b, c, d] = place.to_le_bytes();
    u64::from_le_bytes([u8::from(refusal), 0, 0, 0, a, b, c, d])
}

fn packed(answer: Result<Verdict, Refusal>) -> u64
    ensures { result ≡ verdict_number answer }
{
    match answer {
        Ok(Verdict::Passed) => 0,
        Ok(
            Verdict::Failed {
                fault,
                address,
                level,
            },
        ) => failed(fault, address, level),
        Err(refusal) => refused(refusal),
    }
}

pub fn ht1130_check(mask: &[u8], marks: &mut [u8]) -> u64
    ensures { Checks mask.now marks.old marks.new result }
{
    packed(check(mask, marks))
}

fn counted(answer: Result<u16, Refusal>) -> u64
    ensures { result ≡ way_number answer }
{
    match answer {
        Ok(count) => {
            let [low, high] = count.to_le_bytes();
            u64::from_le_bytes([0, 0, 0, 0, low, high, 0, 0])
        }
        Err(refusal) => refused(refusal),
    }
}

pub fn ht1130_way(mask: &[u8], list: &mut [u8]) -> u64
    ensures { Ways mask.now list.old list.new result }
{
    counted(way(mask, list))
}

// Byte 1, and 4 to 7.
fn bounded(cycles: u16) -> u64
    ensures { result ≡ 2 * 2 ^ 8 + cycles * 2 ^ 32 }
{
    let [low, high] = cycles.to_le_bytes();
    u64::from_le_bytes([0, 2, 0, 0, low, high, 0, 0])
}

fn told(answer: Result<Bound, Refusal>) -> u64
    ensures { result ≡ bound_number answer }
{
    match answer {
        Ok(Bound::NotReached) => 0,
        Ok(Bound::NoBound) => 0x100,
        Ok(Bound::Cycles(cycles)) => bounded(cycles),
        Err(refusal) => refused(refusal),
    }
}

pub fn ht1130_bound(mask: &[u8], address: u16, level: u8) -> u64
    ensures { BoundTold mask.now (pair address level) result }
{
    told(bound_of(mask, address, level))
}
