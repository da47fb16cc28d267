// `checkmask`: reads mask.bin and prints `passed`, then the bounds of both vectors and of each CALL target, and the longest of all; or `fault F at AAA
// level L` and then a shortest way there, a line a pair: address, level, bytes and instruction. A mask of another length, or none, gives `refused 1`.
// What it prints is decided by the proved functions of `checker`, `bound` and `mnemonic`; here a file is read and lines are written.
#![tactic(auto)]

ghost use Rattle.std.specs.Prelude.{◌≡◌, length};
ghost use Rattle.bound.specs.Lists.{bounds_size};

use bound::bound::Bound;
use bound::bounds::{BOUNDS, bounds_of, entry_of, largest};
use bound::calls::call_targets;
use checker::check::{MARKS, Verdict, check};
use checker::way::way;
use files::read_file;
use isa::decoder::decode;
use isa::{ADDRESSES, Instruction, PLACES};
use mnemonic::letters::digit;
use mnemonic::line::{placed, text_of};
use rom::reader::{Code, MASK, code_at, moved_by};
use std::io;
use std::io::{BufWriter, Write};

// A list with room for a way through every pair: three bytes each, an address in three levels.
const WAY: usize = PLACES * 3 * 3;

// The lines of the way are written as bytes, their digits by `digit`: by `write!` a run that prints a long way took up to 1.69 times the instructions
// (docs/DESIGN-PASS.md, "Speed").
fn put_address<W: Write>(out: &mut W, at: u16) -> io::Result<()> {
    out.write_all(&[digit(at / 256), digit(at / 16), digit(at)])
}

fn put_byte<W: Write>(out: &mut W, x: u8) -> io::Result<()> {
    out.write_all(&[digit(x as u16 / 16), digit(x as u16)])
}

// Padded to the longest word.
fn put_level<W: Write>(out: &mut W, level: u8) -> io::Result<()> {
    match level {
        0 => out.write_all(b" main       "),
        1 => out.write_all(b" subroutine "),
        _ => out.write_all(b" interrupt  "),
    }
}

// As many bytes as the list of lengths has for the first one; one where it has none.
fn put_bytes<W: Write>(out: &mut W, code: Code, length: u8) -> io::Result<()> {
    put_byte(out, code.first)?;
    if length == 2 {
        out.write_all(b" ")?;
        put_byte(out, code.second)?;
        out.write_all(b" ")
    } else {
        out.write_all(b"    ")
    }
}

fn put_instruction<W: Write>(out: &mut W, instruction: Instruction) -> io::Result<()> {
    out.write_all(text_of(instruction).as_slice())
}

// A line of the way.
fn put_pair<W: Write>(out: &mut W, mask: &[u8], at: u16, level: u8) -> io::Result<()> {
    let address = at % ADDRESSES;
    put_address(out, address)?;
    put_level(out, level)?;
    let code = code_at(mask, address);
    let length = rom::timing::length(code.first);
    put_bytes(out, code, length)?;
    match decode(code.first, code.second) {
        Some(instruction) => put_instruction(out, placed(instruction, moved_by(address, length)))?,
        None => out.write_all(b"cannot be read")?,
    }
    out.write_all(b"\n")
}

// Each pair's three bytes: its address, the low byte first, and its level.
fn put_pairs<W: Write>(out: &mut W, mask: &[u8], list: &[u8]) -> io::Result<()> {
    for pair in list.chunks_exact(3) {
        put_pair(out, mask, u16::from_le_bytes([pair[0], pair[1]]), pair[2])?;
    }
    Ok(())
}

// A mask that fails always has a way here.
fn put_way<W: Write>(out: &mut W, mask: &[u8]) -> io::Result<()> {
    let mut list = [0u8; WAY];
    match way(mask, &mut list) {
        Ok(count) => put_pairs(out, mask, &list[..count as usize * 3]),
        Err(_) => Ok(()),
    }
}

// The bound of a pair above main.
fn put_bound<W: Write>(out: &mut W, list: &[u16], address: u16, level: u8) -> io::Result<()> {
    let bound = entry_of(list, address, level);
    writeln!(out, "bound at {address:03X} level {level}: {bound}")
}

fn put_targets<W: Write>(out: &mut W, list: &[u16], targets: &[u8; PLACES]) -> io::Result<()> {
    for (address, target) in (0..).zip(targets) {
        if *target == 1 {
            put_bound(out, list, address, 1)?;
        }
    }
    Ok(())
}

// The longest of all, and the first pair that has it.
fn put_wait<W: Write>(out: &mut W, list: &[u16]) -> io::Result<()>
    requires { length list.now ≡ bounds_size }
{
    let place = largest(list);
    let address = (place / 2) as u16;
    let level = (place % 2) as u8 + 1;
    let bound = entry_of(list, address, level);
    write!(out, "longest wait: {bound}")?;
    if bound != Bound::NotReached {
        write!(out, " at {address:03X} level {level}")?;
    }
    writeln!(out)
}

// How long an edge can be held under a mask that passes: from both vectors, from each CALL target, and the longest of all.
fn put_bounds<W: Write>(out: &mut W, mask: &[u8], marks: &[u8; MARKS]) -> io::Result<()> {
    let mut list = [0u16; BOUNDS];
    // Not refused: the mask passed, and the list has its length.
    if let Err(refusal) = bounds_of(mask, &mut list) {
        return writeln!(out, "{refusal}");
    }
    put_bound(out, &list, 4, 2)?;
    put_bound(out, &list, 8, 2)?;
    let targets = call_targets(mask, marks);
    put_targets(out, &list, &targets)?;
    put_wait(out, &list)
}

fn checkmask<W: Write>(out: &mut W, mask: &[u8]) -> io::Result<()> {
    let mut marks = [0u8; MARKS];
    match check(mask, &mut marks) {
        Ok(Verdict::Passed) => {
            writeln!(out, "passed")?;
            put_bounds(out, mask, &marks)
        }
        Ok(
            Verdict::Failed {
                fault,
                address,
                level,
            },
        ) => {
            writeln!(out, "fault {fault} at {address:03X} level {level}")?;
            put_way(out, mask)
        }
        Err(refusal) => writeln!(out, "{refusal}"),
    }
}

// One byte more than a mask has is read, so that a longer file is refused. A missing file counts as empty.
fn main(rt: HostRuntime) -> io::Result<()> {
    let mut mask = [0u8; MASK + 1];
    let n = read_file(&rt, b"mask.bin", &mut mask);
    let mut out = BufWriter::new(rt.alloc(), io::writer(&rt))?;
    checkmask(&mut out, &mask[..n])?;
    out.flush()
}
