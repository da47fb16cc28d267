// Pictures read, readings drawn, and what is seen of a lent machine, as numbers.
ghost use Rattle.std.specs.Prelude.{◌≡◌, ◌+◌, ◌*◌, ◌^◌};
ghost use Rattle.glass.specs.Drawing.{drawn_over};
ghost use Rattle.ht1130_tools.specs.Readings.{GlassDrawn, GlassRead, SightTold, complement, given, reading_number, seen_number, sight_number};

use crate::masks::refused;
use glass::draw::draw;
use glass::read::read;
use glass::{Reading, Unseen};
use machine::Machine;
use machine_glass::sight_of;
use refusals::Refusal;

// Byte 3, and 4 to 7.
fn number(value: i32, places: u8) -> u64
    ensures { result ≡ places * 2 ^ 24 + complement value * 2 ^ 32 }
{
    let [a, b, c, d] = value.to_le_bytes();
    u64::from_le_bytes([0, 0, 0, places, a, b, c, d])
}

fn reading_number(reading: Reading) -> u64
    ensures { result ≡ reading_number reading }
{
    match reading {
        Reading::Dark => 0x10000,
        Reading::Number(value, places) => number(value, places),
    }
}

fn seen_number(seen: Result<Reading, Unseen>) -> u64
    ensures { result ≡ seen_number seen }
{
    match seen {
        Ok(reading) => reading_number(reading),
        Err(Unseen::Unreadable(digit)) => 16 + u64::from(digit) * 0x100,
        Err(unseen) => refused(Refusal::from(unseen)),
    }
}

pub fn ht1130_glass_read(picture: &[u8]) -> u64
    ensures { GlassRead picture.now result }
{
    seen_number(read(picture))
}

fn given(dark: u8, value: i32, places: u8) -> Reading
    ensures { result ≡ given dark value places }
{
    if dark == 0 {
        Reading::Number(value, places)
    } else {
        Reading::Dark
    }
}

pub fn ht1130_glass_draw(dark: u8, value: i32, places: u8, picture: &mut [u8]) -> u64
    ensures { GlassDrawn (drawn_over (given dark value places) picture.old) picture.new result }
{
    match draw(given(dark, value, places), picture) {
        Ok(()) => 0,
        Err(refusal) => refused(refusal),
    }
}

fn sight_number(sight: Result<Result<Reading, Unseen>, Refusal>) -> u64
    ensures { result ≡ sight_number sight }
{
    match sight {
        Ok(seen) => seen_number(seen),
        Err(refusal) => refused(refusal),
    }
}

fn told(machine: Machine) -> u64
    ensures { SightTold machine result }
{
    sight_number(sight_of(machine))
}

pub fn ht1130_reading(machine: &Machine) -> u64
    ensures { SightTold machine.now result }
{
    told(*machine)
}
