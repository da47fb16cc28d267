// Vectors for the machine: the commands of vectors.bin applied one after the other, and a line for each answer.
//     number of cases (2); each case: mask (4,096), number of commands (2), commands
// A command is a kind and what it takes; 1 to 6 are document 01's kinds.
//     1 power-on: length of the image (1), options (5), image (168, of which that length is handed in)
//     2 Run: steps (2), length of the mask handed in (2; over 4,096 counts as 4,097)
//     3 PM, PS, PP   4 INT   5 TMCLK (2)   6 RES   7 one step
//     8 all of the processor (36)   9 data memory: index, value   10 the count of strays (2)
//     11 the query of that count, which has a line of its own
// 8 to 10 put the machine in a state and print nothing. A case starts from the machine before its first power-on.
#![tactic(auto)]

mod input;
mod text;

use datapath::memory::MEMORY;
use input::{byte, bytes, options, word};
use machine::events::Event;
use machine::{Answer, Machine};
use rom::reader::MASK;
use std::fs::File;
use std::io;
use std::io::{BufReader, BufWriter, Read, Write};
use text::{put_answer, put_count};

// The image has room for a longer one than a whole one.
fn power_on<R: Read>(file: &mut R, machine: Machine) -> Answer {
    let length = byte(file);
    let options = options(file);
    let image: [u8; 168] = bytes(file);
    let n = (length as usize).min(168);
    machine.power_on(options, &image[..n])
}

// A mask that is too long is one of zeros.
fn run<R: Read>(file: &mut R, machine: Machine, mask: &[u8]) -> Answer {
    let steps = word(file);
    let length = word(file);
    if MASK < length as usize {
        let long = [0u8; MASK + 1];
        return machine.apply(Event::Run(steps), &long);
    }
    let n = (length as usize).min(mask.len());
    machine.apply(Event::Run(steps), &mask[..n])
}

fn pins<R: Read>(file: &mut R, machine: Machine, mask: &[u8]) -> Answer {
    let pm = byte(file);
    let ps = byte(file);
    let pp = byte(file);
    machine.apply(Event::Pins(pm, ps, pp), mask)
}

fn set_cpu<R: Read>(file: &mut R, mut machine: Machine) -> Machine {
    machine.cpu = input::cpu(file);
    machine
}

fn set_nibble<R: Read>(file: &mut R, mut machine: Machine) -> Machine {
    let index = byte(file) as usize;
    let value = byte(file);
    if index < MEMORY {
        machine.memory[index] = value;
    }
    machine
}

fn set_gap<R: Read>(file: &mut R, mut machine: Machine) -> Machine {
    machine.trace.gap = word(file);
    machine
}

fn query<W: Write>(out: &mut W, machine: Machine) -> io::Result<Machine> {
    put_count(out, machine.gap_count())?;
    Ok(machine)
}

fn answer<R: Read>(kind: u8, file: &mut R, machine: Machine, mask: &[u8]) -> Answer {
    match kind {
        1 => power_on(file, machine),
        2 => run(file, machine, mask),
        3 => pins(file, machine, mask),
        4 => machine.apply(Event::Int(byte(file)), mask),
        5 => machine.apply(Event::Tmclk(word(file)), mask),
        6 => machine.apply(Event::Res, mask),
        _ => machine.step(mask),
    }
}

fn command<R: Read, W: Write>(
    file: &mut R,
    out: &mut W,
    machine: Machine,
    mask: &[u8],
) -> io::Result<Machine> {
    let kind = byte(file);
    match kind {
        8 => Ok(set_cpu(file, machine)),
        9 => Ok(set_nibble(file, machine)),
        10 => Ok(set_gap(file, machine)),
        11 => query(out, machine),
        _ => {
            let a = answer(kind, file, machine, mask);
            put_answer(out, a)?;
            Ok(a.machine)
        }
    }
}

fn commands<R: Read, W: Write>(
    file: &mut R,
    out: &mut W,
    count: u16,
    mask: &[u8],
) -> io::Result<()> {
    let mut machine = Machine::blank();
    for _ in 0..count {
        machine = command(file, out, machine, mask)?;
    }
    Ok(())
}

fn case<R: Read, W: Write>(file: &mut R, out: &mut W) -> io::Result<()> {
    let mask: [u8; MASK] = bytes(file);
    let count = word(file);
    commands(file, out, count, &mask)
}

fn cases<R: Read, W: Write>(file: &mut R, out: &mut W) -> io::Result<()> {
    for _ in 0..word(file) {
        case(file, out)?;
    }
    Ok(())
}

fn main(rt: HostRuntime) -> io::Result<()> {
    let mut out = BufWriter::new(rt.alloc(), io::writer(&rt))?;
    match File::open(&rt, "vectors.bin") {
        Ok(file) => cases(&mut BufReader::new(rt.alloc(), file)?, &mut out)?,
        Err(_) => writeln!(out, "no vectors.bin")?,
    }
    out.flush()
}
