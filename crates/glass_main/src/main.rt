// Pictures read and readings drawn: the cases of cases.bin one after the other, and a line for each.
//     number of cases (2); each case: kind (1), length (1), and
//     0 a picture: 9 bytes, of which that length is handed in
//     1 a reading: sort (1), size (2), places (1); it is drawn on a picture of that length, every byte FFh
// A sort is 0 for dark, 1 for a number, 2 for one under 0, or one of the large numbers of `value`. Numbers are little-endian. The
// lines, with bytes in hexadecimal:
//     read BYTES: dark | VALUE PLACES, and its text after a colon | refused N | refused 16 at digit K
//     draw dark | VALUE PLACES on LENGTH: the answer's number, and the bytes afterwards
#![tactic(auto)]

mod text;

use files::read_full;
use glass::Reading;
use glass::draw::draw;
use glass::read::read;
use std::fs::File;
use std::io;
use std::io::{BufReader, BufWriter, Read, Write};
use text::{put_bytes, put_reading, put_seen};

// What a picture holds before a reading is drawn on it: no nibble.
const KEPT: u8 = 255;

// The next bytes of a file; past its end all is 0. `machine_main` has its own: each function of `files` has a promise, and this one has none.
fn bytes<const N: usize, R: Read>(file: &mut R) -> [u8; N] {
    let mut bytes = [0u8; N];
    read_full(file, &mut bytes);
    bytes
}

fn byte<R: Read>(file: &mut R) -> u8 {
    u8::from_le_bytes(bytes(file))
}

fn word<R: Read>(file: &mut R) -> u16 {
    u16::from_le_bytes(bytes(file))
}

fn value(sort: u8, size: u16) -> i32 {
    match sort {
        1 => i32::from(size),
        2 => -i32::from(size),
        3 => 65541,
        4 => -65541,
        5 => 2147483647,
        _ => -2147483648,
    }
}

fn reading<R: Read>(file: &mut R) -> Reading {
    let sort = byte(file);
    let size = word(file);
    let places = byte(file);
    if sort == 0 {
        return Reading::Dark;
    }
    Reading::Number(value(sort, size), places)
}

fn put_read<W: Write>(out: &mut W, picture: &[u8]) -> io::Result<()> {
    write!(out, "read ")?;
    put_bytes(out, picture)?;
    write!(out, ": ")?;
    put_seen(out, read(picture))
}

fn put_draw<W: Write>(out: &mut W, reading: Reading, picture: &mut [u8]) -> io::Result<()> {
    write!(out, "draw ")?;
    put_reading(out, reading)?;
    let length = picture.len();
    let number = match draw(reading, picture) {
        Ok(()) => 0,
        Err(refusal) => u8::from(refusal),
    };
    write!(out, " on {length}: {number} ")?;
    put_bytes(out, picture)
}

fn picture_case<R: Read, W: Write>(file: &mut R, out: &mut W, length: u8) -> io::Result<()> {
    let picture: [u8; 9] = bytes(file);
    let n = (length as usize).min(9);
    put_read(out, &picture[..n])
}

fn reading_case<R: Read, W: Write>(file: &mut R, out: &mut W, length: u8) -> io::Result<()> {
    let reading = reading(file);
    let mut picture = [KEPT; 9];
    let n = (length as usize).min(9);
    put_draw(out, reading, &mut picture[..n])
}

fn case<R: Read, W: Write>(file: &mut R, out: &mut W) -> io::Result<()> {
    let kind = byte(file);
    let length = byte(file);
    match kind {
        0 => picture_case(file, out, length)?,
        _ => reading_case(file, out, length)?,
    }
    writeln!(out)
}

fn cases<R: Read, W: Write>(file: &mut R, out: &mut W) -> io::Result<()> {
    for _ in 0..word(file) {
        case(file, out)?;
    }
    Ok(())
}

fn main(rt: HostRuntime) -> io::Result<()> {
    let mut out = BufWriter::new(rt.alloc(), io::writer(&rt))?;
    match File::open(&rt, "cases.bin") {
        Ok(file) => cases(&mut BufReader::new(rt.alloc(), file)?, &mut out)?,
        Err(_) => writeln!(out, "no cases.bin")?,
    }
    out.flush()
}
