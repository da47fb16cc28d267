// Power-on, the other events, the report and the count of strays on a machine by value, from numbers.
ghost use Rattle.std.specs.Prelude.{◌≡◌};
ghost use Rattle.ht1130.specs.Lent.{gap_number, options_of, hosted};
ghost use Rattle.machine.specs.Gap.{gap_count};
ghost use Rattle.machine.specs.Power.{power_on};
ghost use Rattle.machine.specs.Report.{report, reporting};

use cpu::Options;
use machine::events::event_of;
use machine::{Answer, Machine};

pub(crate) fn power(
    machine: Machine,
    rate: u8,
    commons: u8,
    pm: u8,
    ps: u8,
    pp: u8,
    image: &[u8],
) -> Answer
    ensures { result ≡ power_on (options_of rate commons pm ps pp) image.now machine }
{
    let options = Options {
        rate,
        commons,
        pm,
        ps,
        pp,
    };
    machine.power_on(options, image)
}

// The event of a kind. What the kind does not name is not looked at, and an unknown one is refused.
pub(crate) fn event(
    machine: Machine,
    kind: u16,
    count: u16,
    a: u8,
    b: u8,
    c: u8,
    mask: &[u8],
) -> Answer
    ensures { result ≡ hosted mask.now kind count a b c machine }
{
    machine.apply_named(event_of(kind, count, a, b, c), mask)
}

pub(crate) fn shown(machine: Machine, out: &mut [u8]) -> u8
    ensures { reporting result out.new ≡ report machine out.old }
{
    match machine.report(out) {
        Ok(()) => 0,
        Err(refusal) => u8::from(refusal),
    }
}

// The count in bytes 4 and 5, the refusal in byte 0.
pub(crate) fn gap_number(machine: Machine) -> u64
    ensures { result ≡ gap_number (gap_count machine) }
{
    match machine.gap_count() {
        Ok(count) => {
            let [low, high] = count.to_le_bytes();
            u64::from_le_bytes([0, 0, 0, 0, low, high, 0, 0])
        }
        Err(refusal) => u64::from(u8::from(refusal)),
    }
}
