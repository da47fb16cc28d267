// The instruction set, printed: each first byte with five second bytes, one line for each.
//     FF SS READING L C BYTES
// The two bytes, what they read as, the length and cycles of the first byte, and what was read written back. A conditional branch is shown with
// its whole target where the moved address is 16 times the second byte: in the lower half of the ROM, and for FF in the upper one.
#![tactic(auto)]

use isa::decoder::decode;
use mnemonic::letters::digit;
use mnemonic::line::{placed, text_of};
use refusals::Refusal;
use rom::encoder::{Written, encode};
use rom::timing::{cycles, length};
use std::io;
use std::io::{BufWriter, Write};

// A byte's two digits. Bytes, lengths and cycles are put by hand, for speed: by a `write!` for each, a line takes three times the instructions.
fn put_byte<W: Write>(out: &mut W, x: u8) -> io::Result<()> {
    let x = u16::from(x);
    out.write_all(&[digit(x / 16), digit(x)])
}

// What the encoder makes of an instruction.
fn put_written<W: Write>(out: &mut W, written: Result<Written, Refusal>) -> io::Result<()> {
    match written {
        Ok(Written::One(a)) => put_byte(out, a),
        Ok(Written::Two(a, b)) => {
            put_byte(out, a)?;
            out.write_all(b" ")?;
            put_byte(out, b)
        }
        Err(_) => out.write_all(b"refused"),
    }
}

// The length and cycles of a first byte.
fn put_timing<W: Write>(out: &mut W, first: u8) -> io::Result<()> {
    let size = digit(u16::from(length(first)));
    let spent = digit(u16::from(cycles(first)));
    out.write_all(&[b' ', size, b' ', spent, b' '])
}

fn put_line<W: Write>(out: &mut W, first: u8, second: u8) -> io::Result<()> {
    put_byte(out, first)?;
    out.write_all(b" ")?;
    put_byte(out, second)?;
    out.write_all(b" ")?;
    match decode(first, second) {
        Some(instruction) => {
            let shown = placed(instruction, 16 * (second as u16));
            out.write_all(text_of(shown).as_slice())?;
            put_timing(out, first)?;
            put_written(out, encode(instruction))?;
        }
        None => {
            out.write_all(b"unreadable")?;
            put_timing(out, first)?;
            out.write_all(b"-")?;
        }
    }
    out.write_all(b"\n")
}

fn main(rt: HostRuntime) -> io::Result<()> {
    let mut out = BufWriter::new(rt.alloc(), io::writer(&rt))?;
    for first in 0..=255u8 {
        for second in [0x00, 0x0f, 0x10, 0x3e, 0xff] {
            put_line(&mut out, first, second)?;
        }
    }
    out.flush()
}
