// An instruction read and written, as numbers, for C.
ghost use Rattle.std.specs.Prelude.{◌≡◌};
ghost use Rattle.abi.specs.Answers.{writing_of, read_number, write_number};
ghost use Rattle.rom.specs.Fetching.{fetching};

use ht1130_tools::instructions;

#[unsafe(no_mangle)]
pub extern "C" fn ht1130_read(mask: &[u8], address: u16) -> u64
    ensures { result ≡ read_number (fetching mask.now address) }
{
    instructions::ht1130_read(mask, address)
}

#[unsafe(no_mangle)]
pub extern "C" fn ht1130_write(form: u8, a: u8, b: u16) -> u64
    ensures { result ≡ write_number (writing_of form a b) }
{
    instructions::ht1130_write(form, a, b)
}
