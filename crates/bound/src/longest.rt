// The longest way to a return, in cycles, by a walk that remembers what it found.
ghost use Rattle.std.specs.Prelude.{◌≡◌, ℕ, ◌%◌, ◌<◌, ◌≤◌, get_or, set};
ghost use Rattle.isa.specs.Code.{addresses};
ghost use Rattle.reach.specs.Walk.{zeros};
ghost use Rattle.bound.specs.Paths.{Leads};
ghost use Rattle.bound.specs.Lists.{endless};
ghost use Rattle.bound.specs.Walk.{RemembersOf, ToldOf, most_cycles, next_addresses, settled};

use crate::ways::{Ways, ways_by};
use isa::PLACES;
use rom::reader::code_at;
use rom::timing::entry;

// No bound. It stays a number beside 0 for nothing known: `Entries`, `Largest` and `LongestWait` speak of the numbers in the list of bounds. An address
// has it too while the chains from it are walked: one that comes back to it has met a loop.
pub const ENDLESS: u16 = 65535;

// An address is found: its cycles, and the most that can follow.
fn settle(found: &mut [u16; PLACES], address: u16, worst: u16, cycles: u8) -> u16
    requires { (address < addresses) × ((worst ≡ endless → ⊥) → worst ≤ most_cycles) }
    ensures value { result ≡ settled worst cycles }
    ensures found_after { found.new ≡ set found.old address result }
{
    let at = address as usize;
    if worst == ENDLESS {
        found[at] = ENDLESS;
        return ENDLESS;
    }
    let all = worst + cycles as u16;
    found[at] = all;
    all
}

// The most cycles from an address to a return. `left` is the measure, the pairs that a chain can still have: at least as many as are not found yet. The
// second way is often known: a look saves the call.
pub(crate) fn longest(mask: &[u8], found: &mut [u16; PLACES], address: u16, left: u16) -> u16
    requires in_range { (address < addresses) × (zeros found.old ≤ left) }
    requires on_the_way { RemembersOf mask.now (λ (k : ℕ). Leads (next_addresses mask.now) k address) found.old }
    ensures told { ToldOf mask.now address result }
    ensures remembers { RemembersOf mask.now (λ (k : ℕ). get_or found.old k 0 ≡ endless) found.new }
    ensures no_more_left { zeros found.new ≤ zeros found.old }
{
    let at = address as usize;
    let known = found[at];
    if known != 0 {
        return known;
    }
    found[at] = ENDLESS; // while its chains are walked
    let code = code_at(mask, address);
    let timing = entry(code.first);
    match ways_by(address, code.first, code.second, timing.bytes) {
        Ways::Stop => settle(found, address, ENDLESS, timing.cycles),
        Ways::Out => settle(found, address, 0, timing.cycles),
        Ways::One(a) => {
            let one = longest(mask, found, a, left - 1);
            settle(found, address, one, timing.cycles)
        }
        Ways::Two(a, b) => {
            let one = longest(mask, found, a, left - 1);
            let other = found[b as usize];
            if other != 0 {
                return settle(found, address, one.max(other), timing.cycles);
            }
            let two = longest(mask, found, b, left - 1);
            settle(found, address, one.max(two), timing.cycles)
        }
    }
}
