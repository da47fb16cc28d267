// The data memory. Every data read goes by `load` and every data write by `store`, and each tells whether it fell in the gap, 80h-DFh.
ghost use Rattle.std.specs.Prelude.{◌≡◌};
ghost use Rattle.datapath.specs.Alu.{flag};
ghost use Rattle.datapath.specs.Memory.{accessed, in_gap, pointed, stored, tallied};

use isa::DataAddress;

// How many nibbles there are: 00h-7Fh, then E0h-FFh.
pub const MEMORY: usize = 160;

// What a read gives: the nibble, 0 in the gap too, and whether the address is there. So it is no Option.
#[derive(Clone, Copy)]
pub struct Access {
    pub nibble: u8,
    pub stray: bool,
}

// The address that a register pair names.
pub fn pointer(high: u8, low: u8) -> DataAddress
    ensures { result ≡ pointed high low }
{
    DataAddress(((16 * high as u16 + low as u16) % 256) as u8)
}

// The nibble at an address; 80h-DFh read 0.
#[tactic(auto, unfolding(crate::specs::Memory::loaded))]
pub fn load(memory: &[u8; MEMORY], address: DataAddress) -> Access
    ensures { result ≡ accessed memory.now address }
{
    let a = address.0 as usize;
    if a < 0x80 {
        return Access {
            nibble: memory[a],
            stray: false,
        };
    }
    if a < 0xe0 {
        return Access {
            nibble: 0,
            stray: true,
        };
    }
    Access {
        nibble: memory[a - 96],
        stray: false, // the display
    }
}

// Writes the nibble at an address; 80h-DFh ignore it. The answer tells whether the address is one of those.
#[tactic(auto, unfolding(crate::specs::Memory::stored))]
pub fn store(memory: &mut [u8; MEMORY], address: DataAddress, value: u8) -> bool
    ensures memory_after { memory.new ≡ stored memory.old address value }
    ensures value { result ≡ in_gap address }
{
    let a = address.0 as usize;
    if a < 0x80 {
        memory[a] = value;
        return false;
    }
    if a <= 0xdf {
        return true;
    }
    memory[a - 96] = value;
    false
}

// Counts an access where it fell in the gap. The count stops at its largest value.
#[tactic(auto, unfolding(crate::specs::Memory::tallied))]
pub fn tally(gap: &mut u16, stray: bool)
    ensures { gap.new ≡ tallied gap.old (flag stray) }
{
    if stray {
        *gap = gap.saturating_add(1);
    }
}
