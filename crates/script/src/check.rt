// The whole check of a script, before anything runs.
ghost use Rattle.std.specs.Prelude.{◌≡◌, ℕ, Result, eqb};
ghost use Rattle.refusals.specs.Numbers.{number_of, refusal_of};
ghost use Rattle.records.specs.Records.{kind_at, offsets};
ghost use Rattle.script.specs.Format.{input_of};
ghost use Rattle.script.specs.Check.{Tells, checked, choice_of, first, told, unless, value_of};

use crate::format::{POWER_ON, format, read};
use crate::{Record, Refused};
use machine::events::values_ok;
use machine::ranges::options_ok;
use records::{RawRecord, Records, count};
use refusals::Refusal;
use rom::reader::mask_ok;

fn values(input: Record) -> Result<(), Refusal>
    ensures { refusal_of result ≡ value_of (input_of input) }
{
    match input {
        Record::Power(_, fill) if 15 < fill => Err(Refusal::Value),
        Record::Other(Some(event)) if !values_ok(event) => Err(Refusal::Value),
        _ => Ok(()),
    }
}

// Only a power-on has options.
#[tactic(auto, unfolding(crate::specs::Check::choice_of))]
fn choices(input: Record) -> Result<(), Refusal>
    ensures { refusal_of result ≡ choice_of (input_of input) }
{
    match input {
        Record::Power(options, _) if !options_ok(options) => Err(Refusal::Choice),
        _ => Ok(()),
    }
}

// The first record that a rule refuses.
fn first<'a, F: Fn(RawRecord<'a>) -> Result<(), Refusal>>(
    script: &'a [u8],
    rule: F,
) -> Result<(), Refused>
    requires { F.IsAlwaysCallable rule }
    ensures { (number : ℕ → ℕ) → Tells (F.post rule) script.now number → told result ≡ first number (offsets script.now) }
{
    for record in Records::new(script) {
        if let Err(refusal) = rule(record) {
            return Err(Refused {
                refusal,
                offset: record.at,
            });
        }
    }
    Ok(())
}

// A refusal of the whole script, unless the test holds.
fn unless(holds: bool, refusal: Refusal) -> Result<(), Refused>
    ensures { told result ≡ unless holds (number_of refusal) }
{
    if holds {
        return Ok(());
    }
    Err(Refused { refusal, offset: 0 })
}

// Whether the first record is a power-on.
fn starts(script: &[u8]) -> bool
    ensures { result ≡ eqb (kind_at script.now 0) 1 }
{
    match RawRecord::new(script, 0) {
        Some(raw) => raw.kind() == POWER_ON,
        None => false,
    }
}

// The check: `room` is the length of the report buffer.
#[tactic(auto, using(crate::proofs::Checks::stopped, crate::proofs::Checks::thens, records::proofs::Offsets::few), unfolding(crate::specs::Check::checked))]
pub fn check_script(mask: &[u8], script: &[u8], room: usize) -> Result<(), Refused>
    ensures { told result ≡ checked mask.now script.now room }
{
    unless(mask_ok(mask), Refusal::Mask)?;
    unless(script.len() <= 65535, Refusal::Format)?;
    first(script, |raw| format(&raw))?;
    unless(starts(script), Refusal::Start)?;
    first(script, |raw| values(read(&raw)))?;
    first(script, |raw| choices(read(&raw)))?;
    unless(48 * count(script) <= room, Refusal::Room)
}
