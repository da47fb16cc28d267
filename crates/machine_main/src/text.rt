// A line for each answer. Digits are upper-case hexadecimal.
//     R AAAAAA PPPP CT NNR EHL SSSSC HF PCCM MSPI RRCMSP CCCCCCCC GGGG MEMORY
// Refusal; ACC, R0-R4; PC, CF, TF; timer, running; enable flag, held edge, level; stack address, stack carry; halted, fault; PA,
// sound channel, sound mode; PM, PS, PP, INT; rate, commons, wake nibbles; cycle count; count of strays; data memory, a digit each.
// A number over 15 where one digit has room stands in brackets with two. Where a nibble of data memory is over 15, the high digits
// of all 160 follow. The line of a query has its refusal and its count.
use cpu::Cpu;
use datapath::memory::MEMORY;
use machine::Answer;
use machine::ranges::all_nibbles;
use refusals::Refusal;
use std::io;
use std::io::Write;

// The last digit of a number. Digits are put by hand, for speed: by a `write!` for each number, a line takes up to 14 times the instructions.
fn digit(x: u8) -> u8 {
    let d = x % 16;
    if d < 10 { b'0' + d } else { b'A' + (d - 10) }
}

// Numbers that are to be nibbles, one after the other.
fn put_nibbles<W: Write>(out: &mut W, numbers: &[u8]) -> io::Result<()> {
    for x in numbers {
        if *x < 16 {
            out.write_all(&[digit(*x)])?;
        } else {
            out.write_all(&[b'(', digit(*x / 16), digit(*x), b')'])?;
        }
    }
    Ok(())
}

// A number's bytes, the highest first.
fn put_bytes<W: Write>(out: &mut W, bytes: &[u8]) -> io::Result<()> {
    for x in bytes {
        out.write_all(&[digit(*x / 16), digit(*x)])?;
    }
    Ok(())
}

fn put_space<W: Write>(out: &mut W) -> io::Result<()> {
    out.write_all(b" ")
}

fn put_working<W: Write>(out: &mut W, cpu: Cpu) -> io::Result<()> {
    let r = cpu.registers;
    put_space(out)?;
    put_nibbles(out, &[r.acc, r.r0, r.r1, r.r2, r.r3, r.r4])?;
    let c = cpu.control;
    put_space(out)?;
    put_bytes(out, &c.pc.0.to_be_bytes())?;
    put_space(out)?;
    put_nibbles(out, &[c.cf, c.tf])?;
    let t = cpu.timer;
    put_space(out)?;
    put_bytes(out, &[t.count])?;
    put_nibbles(out, &[t.running])?;
    let i = cpu.interrupts;
    put_space(out)?;
    put_nibbles(out, &[i.enabled, i.held, i.level])?;
    let s = cpu.stack;
    put_space(out)?;
    put_bytes(out, &s.address.0.to_be_bytes())?;
    put_nibbles(out, &[s.carry])?;
    let s = cpu.status;
    put_space(out)?;
    put_nibbles(out, &[s.halted, s.fault])
}

fn put_ports<W: Write>(out: &mut W, cpu: Cpu) -> io::Result<()> {
    let o = cpu.outputs;
    put_space(out)?;
    put_nibbles(out, &[o.pa])?;
    put_bytes(out, &[o.channel])?;
    put_nibbles(out, &[o.mode])?;
    let p = cpu.pins;
    put_space(out)?;
    put_nibbles(out, &[p.pm, p.ps, p.pp, p.int])?;
    let o = cpu.options;
    put_space(out)?;
    put_bytes(out, &[o.rate])?;
    put_nibbles(out, &[o.commons, o.pm, o.ps, o.pp])
}

// The last digit of each number, all of them in one write. They are turned in place, which takes many at once; a `map` takes one by one.
fn put_digits<W: Write>(out: &mut W, memory: &[u8; MEMORY]) -> io::Result<()> {
    let mut text = *memory;
    for x in &mut text {
        *x = digit(*x);
    }
    put_space(out)?;
    out.write_all(&text)
}

fn put_memory<W: Write>(out: &mut W, memory: &[u8; MEMORY]) -> io::Result<()> {
    put_digits(out, memory)?;
    if !all_nibbles(memory) {
        put_digits(out, &memory.map(|x| x / 16))?;
    }
    Ok(())
}

pub fn put_answer<W: Write>(out: &mut W, answer: Answer) -> io::Result<()> {
    let machine = answer.machine;
    put_nibbles(out, &[answer.refusal])?;
    put_working(out, machine.cpu)?;
    put_ports(out, machine.cpu)?;
    put_space(out)?;
    put_bytes(out, &machine.cpu.cycles.to_be_bytes())?;
    put_space(out)?;
    put_bytes(out, &machine.trace.gap.to_be_bytes())?;
    put_memory(out, &machine.memory)?;
    out.write_all(b"\n")
}

pub fn put_count<W: Write>(out: &mut W, answer: Result<u16, Refusal>) -> io::Result<()> {
    let (number, count) = match answer {
        Ok(count) => (0, count),
        Err(refusal) => (u8::from(refusal), 0),
    };
    put_nibbles(out, &[number])?;
    put_space(out)?;
    put_bytes(out, &count.to_be_bytes())?;
    out.write_all(b"\n")
}
