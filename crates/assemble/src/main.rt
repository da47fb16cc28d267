// `assemble`: reads source.asm and writes mask.bin, or prints one line `refused N at line L` and writes nothing. What it writes is made by the
// proved function of `assembler`; here files are read and written.
#![tactic(auto)]

use files::{read_file, write_file};
use rom::reader::MASK;
use std::io;
use std::io::Write;
use std::rt::Files;

fn assemble<F: Files, W: Write>(rt: &F, out: &mut W, text: &[u8]) -> io::Result<()> {
    let mut mask = [0u8; MASK];
    if let Err(refused) = assembler::assemble::assemble(text, &mut mask) {
        return writeln!(out, "{refused}");
    }
    if write_file(rt, b"mask.bin", &mask).is_err() {
        return writeln!(out, "mask.bin cannot be written");
    }
    Ok(())
}

// One byte more than a text may have is read, so that a longer file is refused. A missing file counts as empty.
fn main(rt: HostRuntime) -> io::Result<()> {
    let mut text = [0u8; 65536];
    let n = read_file(&rt, b"source.asm", &mut text);
    assemble(&rt, &mut io::writer(&rt), &text[..n])
}
