// The checker's verdict, the way to what it names, and the bound of a pair, for C.
ghost use Rattle.checker.specs.Marks.{pair};
ghost use Rattle.ht1130_tools.specs.Numbers.{BoundTold, Checks, Ways};

use ht1130_tools::masks;

#[unsafe(no_mangle)]
pub extern "C" fn ht1130_check(mask: &[u8], marks: &mut [u8]) -> u64
    ensures { Checks mask.now marks.old marks.new result }
{
    masks::ht1130_check(mask, marks)
}

#[unsafe(no_mangle)]
pub extern "C" fn ht1130_way(mask: &[u8], list: &mut [u8]) -> u64
    ensures { Ways mask.now list.old list.new result }
{
    masks::ht1130_way(mask, list)
}

#[unsafe(no_mangle)]
pub extern "C" fn ht1130_bound(mask: &[u8], address: u16, level: u8) -> u64
    ensures { BoundTold mask.now (pair address level) result }
{
    masks::ht1130_bound(mask, address, level)
}
