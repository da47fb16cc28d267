// The bounds of all pairs above main, in one list by address, then level: 0 for not reached, 65,535 for no bound, else the cycles:
// numbers, for the reason at `ENDLESS` in longest.rt.
ghost use Rattle.std.specs.Prelude.{◌≡◌, true, length};
ghost use Rattle.isa.specs.Choice.{pick};
ghost use Rattle.rom.specs.Fetching.{sized};
ghost use Rattle.checker.specs.Verdicts.{Marked, Safe, is_marked};
ghost use Rattle.bound.specs.Lists.{BoundsAnswer, Entries, Largest, bound_at, bounds_size, entry_of};

use crate::bound::{Bound, mark_passed, told};
use crate::longest::longest;
use checker::check::{MARKS, is_marked};
use isa::{ADDRESSES, PLACES};
use refusals::Refusal;
use rom::reader::check_mask;

// How many entries the list has: two for each address.
pub const BOUNDS: usize = PLACES * 2;

// A pair's entry for the number of its address: 0 where it is not marked.
fn entry(marks: &[u8; MARKS], address: u16, level: u8, number: u16) -> u16
    ensures { result ≡ pick (is_marked marks.now address level) number 0 }
{
    if is_marked(marks, address, level) {
        number
    } else {
        0
    }
}

// The entries of every address, by one walk that goes on from address to address.
fn fill(mask: &[u8], marks: &[u8; MARKS], list: &mut [u16])
    requires { (sized mask.now ≡ true) × (length list.old ≡ bounds_size) × Marked mask.now marks.now × Safe mask.now }
    ensures { (length list.new ≡ bounds_size) × Entries mask.now list.new }
{
    let mut found = [0u16; PLACES];
    for address in 0..ADDRESSES {
        let number = longest(mask, &mut found, address, ADDRESSES);
        // By index: once `chunks_exact_mut` is over, no entry is known.
        let at = address as usize * 2;
        list[at] = entry(marks, address, 1, number);
        list[at + 1] = entry(marks, address, 2, number);
    }
}

// The bound of each pair above main, under a mask that passes.
pub fn bounds_of(mask: &[u8], list: &mut [u16]) -> Result<(), Refusal>
    ensures { BoundsAnswer mask.now list.old list.new result }
{
    check_mask(mask)?;
    if list.len() != BOUNDS { // refusal 2
        return Err(Refusal::Buffer);
    }
    let mut marks = [0u8; MARKS];
    mark_passed(mask, &mut marks)?;
    fill(mask, &marks, list);
    Ok(())
}

// The entry of a pair above main; 0 for any other pair, and for a list of another length. `level` is a host's number, here and below, and any byte.
fn number_at(list: &[u16], address: u16, level: u8) -> u16
    ensures { result ≡ entry_of list.now address level }
{
    if list.len() != BOUNDS || ADDRESSES <= address || level == 0 || 2 < level {
        return 0;
    }
    list[address as usize * 2 + (level as usize - 1)]
}

// The bound that a list has for a pair above main; `NotReached` for any other pair, and for a list of another length.
pub fn entry_of(list: &[u16], address: u16, level: u8) -> Bound
    ensures { result ≡ bound_at (entry_of list.now address level) }
{
    match number_at(list, address, level) {
        0 => Bound::NotReached,
        found => told(found),
    }
}

// The first place of a largest entry.
pub fn largest(list: &[u16]) -> usize
    ensures { Largest list.now result }
{
    let most = list.iter().copied().max().unwrap_or(0);
    list.iter().position(|entry| *entry == most).unwrap_or(0)
}
