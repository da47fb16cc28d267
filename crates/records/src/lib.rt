// Records on bytes, whatever their kinds mean: payload length, kind, payload, and where each record starts. Past the end every byte reads as 0.
#![tactic(auto)]

ghost use Rattle.std.specs.Prelude.{◌≡◌, ◌+◌, ◌^◌, ◌<◌, ◌≤◌, get_or, length};
ghost use Rattle.refusals.specs.Numbers.{refusal_of};
ghost use Rattle.records.specs.Records.{cut_off, end_at, kind_at, offsets, payload_at, size_at, size_refusal, word_at};

use refusals::Refusal;

// A record as it stands: the bytes that hold it, and the offset at which it starts.
#[derive(Clone, Copy)]
pub struct RawRecord<'a> {
    pub bytes: &'a [u8],
    pub at: usize,
    ghost inside: { at < length bytes.now },
}

impl<'a> RawRecord<'a> {
    ghost use Rattle.std.specs.Prelude.{IfSome, IsSome, ◌↔◌};
    ghost use Rattle.records.specs.Places.{place};

    // The record at an offset: none at the end of the bytes, or past it.
    pub fn new(bytes: &'a [u8], at: usize) -> Option<Self>
        ensures inside { IsSome result ↔ (at < length bytes.now) }
        ensures there { IfSome result (λ r. place r ≡ (bytes.now, at)) }
    {
        if bytes.len() <= at {
            return None;
        }
        Some(RawRecord { bytes, at })
    }

    fn byte(&self, i: usize) -> u8
        ensures { result ≡ get_or self.now.bytes.now i 0 }
    {
        self.bytes.get(i).copied().unwrap_or(0)
    }

    // A little-endian number of two bytes, read at once where both are there.
    fn word(&self, i: usize) -> u16
        requires { i + 2 < 2 ^ 64 }
        ensures { result ≡ word_at self.now.bytes.now i }
    {
        match self.bytes.get(i..i + 2) {
            Some(both) => u16::from_le_bytes([both[0], both[1]]),
            None => u16::from(self.byte(i)),
        }
    }

    // The payload's length.
    pub fn size(&self) -> usize
        ensures { (result ≡ size_at self.now.bytes.now self.now.at) × (result ≤ 65535) }
    {
        usize::from(self.word(self.at))
    }

    pub fn kind(&self) -> u16
        ensures { result ≡ kind_at self.now.bytes.now self.now.at }
    {
        self.word(self.at + 2)
    }

    // Byte `k` of its payload.
    pub fn payload(&self, k: u16) -> u8
        ensures { result ≡ payload_at self.now.bytes.now self.now.at k }
    {
        self.byte(self.at + 4 + usize::from(k))
    }

    // Where the next one starts.
    pub fn end(&self) -> usize
        ensures { result ≡ end_at self.now.bytes.now self.now.at }
    {
        self.at + 4 + self.size()
    }

    // Whether fewer than 4 bytes are left, or fewer than its payload.
    pub fn is_cut_off(&self) -> bool
        ensures { result ≡ cut_off self.now.bytes.now self.now.at }
    {
        self.bytes.len() < self.at + 4 || self.bytes.len() < self.end()
    }
}

// The payload length of the record at an offset. This and the next three answer for every offset: where no byte is left, length, kind and payload
// are 0, and the record is cut off.
pub fn size_at(s: &[u8], at: usize) -> usize
    ensures { (result ≡ size_at s.now at) × (result ≤ 65535) }
{
    RawRecord::new(s, at).map_or(0, |record| record.size())
}

pub fn kind_at(s: &[u8], at: usize) -> u16
    ensures { result ≡ kind_at s.now at }
{
    RawRecord::new(s, at).map_or(0, |record| record.kind())
}

// Byte `k` of its payload.
pub fn payload_at(s: &[u8], at: usize, k: u16) -> u8
    ensures { result ≡ payload_at s.now at k }
{
    RawRecord::new(s, at).map_or(0, |record| record.payload(k))
}

// Whether fewer than 4 bytes are left at an offset, or fewer than the record's payload.
pub fn cut_off(s: &[u8], at: usize) -> bool
    ensures { result ≡ cut_off s.now at }
{
    RawRecord::new(s, at).is_none_or(|record| record.is_cut_off())
}

// The records from an offset on, each where the one before ends.
#[derive(Clone, Copy)]
pub struct Records<'a> {
    bytes: &'a [u8],
    at: usize,
}

impl<'a> Records<'a> {
    ghost use Rattle.records.specs.Places.{places, places_left};

    pub fn new(bytes: &'a [u8]) -> Self
        ensures { places_left result ≡ places bytes.now 0 }
    {
        Records { bytes, at: 0 }
    }
}

impl<'a> Iterator for Records<'a> {
    ghost use Rattle.std.specs.Iterator.{YieldsFirstBy, item_count};
    ghost use Rattle.records.specs.Places.{place, places_left};

    type Item = RawRecord<'a>;

    ghost next_gives = { YieldsFirstBy place places_left };

    ghost remaining = { item_count places_left };

    fn next(&mut self) -> Option<RawRecord<'a>> {
        let record = RawRecord::new(self.bytes, self.at)?;
        self.at = record.end();
        Some(record)
    }
}

// Refusal 6 or 7 of a record that is not cut off: `size` is its kind's, where the kind is known, and `n` its own payload length.
pub fn size_refusal(size: Option<u16>, n: usize) -> Result<(), Refusal>
    ensures { refusal_of result ≡ size_refusal size n }
{
    match size {
        Some(right) if usize::from(right) == n => Ok(()),
        Some(_) => Err(Refusal::Format),
        None => Err(Refusal::Kind),
    }
}

// How many records there are.
pub fn count(bytes: &[u8]) -> usize
    ensures { result ≡ length (offsets bytes.now) }
{
    Records::new(bytes).count()
}
