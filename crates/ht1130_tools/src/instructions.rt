// An instruction read and written, as numbers.
ghost use Rattle.std.specs.Prelude.{◌≡◌};
ghost use Rattle.abi.specs.Answers.{writing_of, read_number, write_number};
ghost use Rattle.rom.specs.Fetching.{fetching};

pub fn ht1130_read(mask: &[u8], address: u16) -> u64
    ensures { result ≡ read_number (fetching mask.now address) }
{
    abi::read(mask, address)
}

pub fn ht1130_write(form: u8, a: u8, b: u16) -> u64
    ensures { result ≡ write_number (writing_of form a b) }
{
    abi::write(form, a, b)
}
