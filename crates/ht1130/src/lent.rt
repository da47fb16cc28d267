// The machine record that a host lends: document 01, "A host may also lend one machine record and have an event applied to it directly".
// Each wrapper takes the record out, hands it on by value, and puts back what the answer has; a refused call stores nothing.
ghost use Rattle.std.specs.Prelude.{◌≡◌};
ghost use Rattle.ht1130.specs.Lent.{gap_number, left, options_of, hosted};
ghost use Rattle.machine.specs.Gap.{gap_count};
ghost use Rattle.machine.specs.Power.{power_on};
ghost use Rattle.machine.specs.Report.{report, reporting};

use crate::events::{event, gap_number, power, shown};
use machine::Machine;

#[tactic(auto, using(crate::proofs::Refused::power_refused))]
pub fn ht1130_power_on(
    machine: &mut Machine,
    rate: u8,
    commons: u8,
    pm: u8,
    ps: u8,
    pp: u8,
    image: &[u8],
) -> u8
    ensures { left result machine.new ≡ power_on (options_of rate commons pm ps pp) image.now machine.old }
{
    let answer = power(*machine, rate, commons, pm, ps, pp, image);
    if answer.refusal == 0 {
        *machine = answer.machine;
    }
    answer.refusal
}

#[tactic(auto, using(crate::proofs::Refused::event_refused))]
pub fn ht1130_apply(
    machine: &mut Machine,
    kind: u16,
    count: u16,
    a: u8,
    b: u8,
    c: u8,
    mask: &[u8],
) -> u8
    ensures { left result machine.new ≡ hosted mask.now kind count a b c machine.old }
{
    let applied = event(*machine, kind, count, a, b, c, mask);
    if applied.refusal == 0 {
        *machine = applied.machine;
    }
    applied.refusal
}

pub fn ht1130_report(machine: &Machine, out: &mut [u8]) -> u8
    ensures { reporting result out.new ≡ report machine.now out.old }
{
    shown(*machine, out)
}

pub fn ht1130_gap_count(machine: &Machine) -> u64
    ensures { result ≡ gap_number (gap_count machine.now) }
{
    gap_number(*machine)
}
