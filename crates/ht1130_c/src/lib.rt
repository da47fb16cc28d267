// The archive libht1130.a: the functions of crate ht1130 as C calls them, each with the promise that it has there. include/ht1130.h documents them.
// A crate is a library or an archive, and host_guarantee stands on the library.
#![tactic(auto)]

ghost use Rattle.std.specs.Prelude.{◌≡◌};
ghost use Rattle.ht1130.specs.Lent.{gap_number, left, options_of, hosted};
ghost use Rattle.machine.specs.Gap.{gap_count};
ghost use Rattle.machine.specs.Power.{power_on};
ghost use Rattle.machine.specs.Report.{report, reporting};

use ht1130::lent;
use machine::Machine;

#[unsafe(no_mangle)]
pub extern "C" fn ht1130_power_on(
    machine: &mut Machine,
    rate: u8,
    commons: u8,
    pm: u8,
    ps: u8,
    pp: u8,
    image: &[u8],
) -> u8
    ensures { left result machine.new ≡ power_on (options_of rate commons pm ps pp) image.now machine.old }
{
    lent::ht1130_power_on(machine, rate, commons, pm, ps, pp, image)
}

#[unsafe(no_mangle)]
pub extern "C" fn ht1130_apply(
    machine: &mut Machine,
    kind: u16,
    count: u16,
    a: u8,
    b: u8,
    c: u8,
    mask: &[u8],
) -> u8
    ensures { left result machine.new ≡ hosted mask.now kind count a b c machine.old }
{
    lent::ht1130_apply(machine, kind, count, a, b, c, mask)
}

#[unsafe(no_mangle)]
pub extern "C" fn ht1130_report(machine: &Machine, out: &mut [u8]) -> u8
    ensures { reporting result out.new ≡ report machine.now out.old }
{
    lent::ht1130_report(machine, out)
}

#[unsafe(no_mangle)]
pub extern "C" fn ht1130_gap_count(machine: &Machine) -> u64
    ensures { result ≡ gap_number (gap_count machine.now) }
{
    lent::ht1130_gap_count(machine)
}
