// The checker, run on refused input, on the 256 masks of one byte throughout, and on stored masks. Each case has two lines:
//     NAME passed | fault F address AAA level L | refused N
//     marks AAA:M ..
// The marks are the first two, and each that is not the one two addresses before it. Addresses are hexadecimal, three digits.
// The stored masks are in masks.bin, after a little-endian two-byte count.
#![tactic(auto)]

use checker::check::{MARKS, Verdict, check};
use files::read_full;
use refusals::Refusal;
use rom::reader::MASK;
use std::fs::File;
use std::io;
use std::io::{BufWriter, Read, Write};

// What the mark bytes hold before the checker writes them.
const KEPT: u8 = 255;

fn put_verdict<W: Write>(out: &mut W, answer: Result<Verdict, Refusal>) -> io::Result<()> {
    match answer {
        Ok(Verdict::Passed) => writeln!(out, " passed"),
        Ok(
            Verdict::Failed {
                fault,
                address,
                level,
            },
        ) => { writeln!(out, " fault {fault} address {address:03x} level {level}") }
        Err(refusal) => writeln!(out, " {refusal}"),
    }
}

fn put_marks<W: Write>(out: &mut W, marks: &[u8]) -> io::Result<()> {
    write!(out, "marks")?;
    for (at, mark) in marks.iter().enumerate() {
        if at < 2 || marks[at - 2] != *mark {
            write!(out, " {at:03x}:{mark}")?;
        }
    }
    writeln!(out)
}

// One case, after its name.
fn put_case<W: Write>(out: &mut W, mask: &[u8], marks: &mut [u8]) -> io::Result<()> {
    let answer = check(mask, marks);
    put_verdict(out, answer)?;
    put_marks(out, marks)
}

// Refusals 1 and 2, and both: the marks stay.
fn put_refused<W: Write>(out: &mut W) -> io::Result<()> {
    let short = [0x3eu8; MASK - 1];
    let mask = [0x3eu8; MASK];
    let mut marks = [KEPT; MARKS];
    let mut long = [KEPT; MARKS + 1];
    write!(out, "short mask")?;
    put_case(out, &short, &mut marks)?;
    write!(out, "long marks")?;
    put_case(out, &mask, &mut long)?;
    write!(out, "short mask, long marks")?;
    put_case(out, &short, &mut long)
}

// The mask that is this byte throughout.
fn put_filled<W: Write>(out: &mut W, byte: u8) -> io::Result<()> {
    let mask = [byte; MASK];
    let mut marks = [KEPT; MARKS];
    write!(out, "all {byte:02x}")?;
    put_case(out, &mask, &mut marks)
}

// The next stored mask.
fn put_stored<R: Read, W: Write>(file: &mut R, out: &mut W, number: u16) -> io::Result<()> {
    let mut mask = [0u8; MASK];
    let mut marks = [KEPT; MARKS];
    let got = read_full(file, &mut mask);
    write!(out, "{number}")?;
    put_case(out, &mask[..got], &mut marks)
}

fn put_each_filled<W: Write>(out: &mut W) -> io::Result<()> {
    for byte in 0..=255u8 {
        put_filled(out, byte)?;
    }
    Ok(())
}

fn put_all_stored<R: Read, W: Write>(file: &mut R, out: &mut W, stored: u16) -> io::Result<()> {
    for number in 0..stored {
        put_stored(file, out, number)?;
    }
    Ok(())
}

fn put_file<R: Read, W: Write>(file: &mut R, out: &mut W) -> io::Result<()> {
    let mut two = [0u8; 2];
    read_full(file, &mut two);
    put_all_stored(file, out, u16::from_le_bytes(two))
}

fn main(rt: HostRuntime) -> io::Result<()> {
    let mut out = BufWriter::new(rt.alloc(), io::writer(&rt))?;
    put_refused(&mut out)?;
    put_each_filled(&mut out)?;
    if let Ok(mut file) = File::open(&rt, "masks.bin") {
        put_file(&mut file, &mut out)?;
    }
    out.flush()
}
