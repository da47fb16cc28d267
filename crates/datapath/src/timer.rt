// The timer's count.
ghost use Rattle.std.specs.Prelude.{◌≡◌};
ghost use Rattle.datapath.specs.Timer.{clocks, counted};

// A count and a flag that is 1 where it passed 255. It is a number, as the flags of the processor are: `Cpu::timed` takes any.
#[derive(Clone, Copy)]
pub struct Count {
    pub count: u8,
    pub passed: u8,
}

// How many clocks the timer gets in `spent` cycles after `cycles`. Nothing on the external clock.
pub fn clock(rate: u8, cycles: u32, spent: u8) -> u16
    ensures { result ≡ clocks rate cycles spent }
{
    if 13 < rate {
        return 0;
    }
    let phase = (cycles % 2048) as u16 * 4;
    let next = phase + spent as u16 * 4;
    (next >> rate) - (phase >> rate)
}

// The count `n` clocks on.
pub fn advance(count: u8, n: u16) -> Count
    ensures { result ≡ counted count n }
{
    let total = count as u32 + n as u32;
    Count {
        count: (total % 256) as u8,
        passed: u8::from(255 < total),
    }
}
