// Bytes, numbers and readings as text.
use glass::{Reading, Unseen};
use refusals::Refusal;
use std::io;
use std::io::Write;

pub fn put_bytes<W: Write>(out: &mut W, bytes: &[u8]) -> io::Result<()> {
    for byte in bytes {
        write!(out, "{byte:02x}")?;
    }
    Ok(())
}

// The numbers of a reading, which may not fit the glass.
pub fn put_reading<W: Write>(out: &mut W, reading: Reading) -> io::Result<()> {
    match reading {
        Reading::Dark => write!(out, "dark"),
        Reading::Number(value, places) => write!(out, "{value} {places}"),
    }
}

pub fn put_seen<W: Write>(out: &mut W, seen: Result<Reading, Unseen>) -> io::Result<()> {
    match seen {
        Ok(reading) => {
            put_reading(out, reading)?;
            write!(out, ": {reading}")
        }
        Err(unseen) => {
            let refusal = Refusal::from(unseen);
            write!(out, "{refusal}")?;
            match unseen {
                Unseen::Unreadable(digit) => write!(out, " at digit {digit}"),
                _ => Ok(()),
            }
        }
    }
}
