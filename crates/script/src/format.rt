// A script's records: what each is, and the payload length of each kind.
ghost use Rattle.std.specs.Prelude.{◌≡◌, List, ℕ, Some};
ghost use Rattle.refusals.specs.Numbers.{refusal_of};
ghost use Rattle.records.specs.Records.{kind_at};
ghost use Rattle.script.specs.Check.{format_at};
ghost use Rattle.script.specs.Format.{input_at, input_of, options_at, size_of};

use crate::Record;
use cpu::Options;
use machine::events::{Event, event_of};
use records::{RawRecord, size_refusal};
use refusals::Refusal;

// The kind of a power-on. The others are the machine's events.
pub(crate) const POWER_ON: u16 = 1;

fn options_of(raw: &RawRecord) -> Options
    ensures { result ≡ options_at raw.now.bytes.now raw.now.at }
{
    Options {
        rate: raw.payload(0),
        commons: raw.payload(1),
        pm: raw.payload(2),
        ps: raw.payload(3),
        pp: raw.payload(4),
    }
}

// Inlined, since a record that is handed back in memory is stored in pieces and loaded in others, which costs more than reading it.
#[inline(always)]
#[tactic(auto, unfolding(crate::specs::Format::input_at))]
pub(crate) fn read(raw: &RawRecord) -> Record
    ensures { input_of result ≡ input_at raw.now.bytes.now raw.now.at }
{
    let kind = raw.kind();
    if kind == POWER_ON {
        return Record::Power(options_of(raw), raw.payload(5));
    }
    let a = raw.payload(0);
    let b = raw.payload(1);
    let c = raw.payload(2);
    let count = u16::from_le_bytes([a, b]); // of the bytes at hand
    Record::Other(event_of(kind, count, a, b, c))
}

// The payload length that an event has.
fn event_size(event: Event) -> u16
    ensures { Some result ≡ size_of (input_of (Record.Other (Some event))) }
{
    match event {
        Event::Run(_) => 2,
        Event::Pins(_, _, _) => 3,
        Event::Int(_) => 1,
        Event::Tmclk(_) => 2,
        Event::Res => 0,
    }
}

// The payload length that a kind has, whatever stands in the payload; none of an unknown kind.
#[tactic(auto, unfolding(machine::specs::Events::event_of, crate::specs::Format::input_at))]
fn size_of(kind: u16) -> Option<u16>
    ensures { (s : List ℕ) (at : ℕ) → kind ≡ kind_at s at → result ≡ size_of (input_at s at) }
{
    if kind == POWER_ON {
        return Some(6);
    }
    Some(event_size(event_of(kind, 0, 0, 0, 0)?))
}

// Whether a record's bytes are there, and as many as its kind has.
#[tactic(auto, unfolding(crate::specs::Check::format_at))]
pub(crate) fn format(raw: &RawRecord) -> Result<(), Refusal>
    ensures { refusal_of result ≡ format_at raw.now.bytes.now raw.now.at }
{
    if raw.is_cut_off() {
        return Err(Refusal::Format);
    }
    size_refusal(size_of(raw.kind()), raw.size())
}
