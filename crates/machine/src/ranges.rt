// Whether each field is in its range: refusals 3, 4 and 5.
ghost use Rattle.std.specs.Prelude.{◌≡◌, Ok, Err, not, ◌&&◌, ◌||◌, eqb, ltb};
ghost use Rattle.isa.specs.Code.{addresses};
ghost use Rattle.cpu.specs.Range.{bit, cpu_ok, nibble, nibbles, options_ok, registers_ok, valid};
ghost use Rattle.cpu.specs.State.{state};
ghost use Rattle.isa.specs.Choice.{pick};
ghost use Rattle.refusals.specs.declared.Refusal.TheVariants.{Range};

use cpu::{Cpu, Options};
use datapath::memory::MEMORY;
use isa::ADDRESSES;
use refusals::Refusal;

// The larger of two numbers: a nibble where both are.
fn larger(a: u8, b: u8) -> u8
    ensures { ltb result 16 ≡ ltb a 16 && ltb b 16 }
{
    a.max(b)
}

// Whether every element is a nibble. One test at the end: a loop with no way out takes many elements at once.
pub fn all_nibbles(s: &[u8]) -> bool
    ensures { result ≡ nibbles s.now }
{
    let mut top = 0;
    for x in s {
        top = larger(top, *x);
    }
    top < 16
}

// The bits of two numbers together: in a range of whole bits where both are.
fn joined(a: u8, b: u8) -> u8
    ensures { (ltb result 16 ≡ ltb a 16 && ltb b 16) × (ltb result 2 ≡ ltb a 2 && ltb b 2) }
{
    a | b
}

fn rate_ok(rate: u8) -> bool
    ensures { result ≡ ltb rate 14 && not (eqb rate 6) || eqb rate 255 }
{
    (rate < 14 && rate != 6) || rate == 255
}

// Refusal 4 is the answer to a power-on where this is false.
#[tactic(auto, unfolding(cpu::specs::Range::options_ok))]
pub fn options_ok(o: Options) -> bool
    ensures { result ≡ options_ok o }
{
    listed(o.rate, o.commons) && o.pm < 16 && o.ps < 16 && o.pp < 16
}

// Registers, PA, port levels and wake nibbles: one test for all.
#[tactic(auto, unfolding(cpu::specs::Range::registers_ok))]
fn nibbles_ok(c: Cpu) -> bool
    ensures { result ≡ registers_ok c.registers
        && ((nibble c.outputs.pa && (nibble c.pins.pm && (nibble c.pins.ps && nibble c.pins.pp)))
        && (nibble c.options.pm && (nibble c.options.ps && nibble c.options.pp))) }
{
    let registers = joined(
        c.registers.acc,
        joined(
            c.registers.r0,
            joined(
                c.registers.r1,
                joined(c.registers.r2, joined(c.registers.r3, c.registers.r4)),
            ),
        ),
    );
    let ports = joined(
        c.outputs.pa,
        joined(c.pins.pm, joined(c.pins.ps, c.pins.pp)),
    );
    let wakes = joined(c.options.pm, joined(c.options.ps, c.options.pp));
    joined(registers, joined(ports, wakes)) < 16
}

// The nine flags: one test for all.
fn flags_ok(c: Cpu) -> bool
    ensures { result ≡ (bit c.control.cf && (bit c.control.tf && (bit c.stack.carry && bit c.status.halted)))
        && (bit c.interrupts.enabled && (bit c.interrupts.held && (bit c.timer.running && (bit c.outputs.mode && bit c.pins.int)))) }
{
    let program = joined(
        c.control.cf,
        joined(c.control.tf, joined(c.stack.carry, c.status.halted)),
    );
    let rest = joined(
        c.interrupts.enabled,
        joined(
            c.interrupts.held,
            joined(c.timer.running, joined(c.outputs.mode, c.pins.int)),
        ),
    );
    joined(program, rest) < 2
}

// PC and the stack address: one test for both.
fn addresses_ok(pc: u16, address: u16) -> bool
    ensures { result ≡ ltb pc addresses && ltb address addresses }
{
    let all = pc | address;
    all < ADDRESSES
}

// The rate and the commons, each of a list of its own.
fn listed(rate: u8, commons: u8) -> bool
    ensures { result ≡ (ltb rate 14 && not (eqb rate 6) || eqb rate 255) && (eqb commons 3 || eqb commons 4) }
{
    rate_ok(rate) && (commons == 3 || commons == 4)
}

// What is tested alone. A halted machine has no fault; the counts of timer and cycles have any value of their types.
fn others_ok(c: Cpu) -> bool
    ensures { result ≡ ltb c.interrupts.level 3
        && (ltb c.status.fault 4
        && ((eqb c.status.halted 0 || eqb c.status.fault 0)
        && (ltb c.outputs.channel 17
        && ((ltb c.options.rate 14 && not (eqb c.options.rate 6) || eqb c.options.rate 255)
        && (eqb c.options.commons 3 || eqb c.options.commons 4))))) }
{
    c.interrupts.level < 3
        && c.status.fault < 4
        && (c.status.halted == 0 || c.status.fault == 0)
        && c.outputs.channel < 17
        && listed(c.options.rate, c.options.commons)
}

// Tests of many fields at once are few: so the compiler puts them in place of each call, and no processor is copied for one.
fn cpu_ok(c: Cpu) -> bool
    ensures { result ≡ cpu_ok c }
{
    nibbles_ok(c) && flags_ok(c) && addresses_ok(c.control.pc.0, c.stack.address.0) && others_ok(c)
}

// Whether a machine is in range, from its two parts: the memory is lent, not copied. Refusal 5 is the answer where this is false.
#[tactic(auto, unfolding(cpu::specs::Range::valid, cpu::specs::Range::memory_ok))]
pub(crate) fn sound(cpu: Cpu, memory: &[u8; MEMORY]) -> bool
    ensures { result ≡ valid (state cpu memory.now) }
{
    cpu_ok(cpu) && all_nibbles(memory)
}

// The same test as a refusal, for a function that refuses.
pub(crate) fn check_sound(cpu: Cpu, memory: &[u8; MEMORY]) -> Result<(), Refusal>
    ensures { result ≡ pick (valid (state cpu memory.now)) (Ok tt) (Err Range) }
{
    if sound(cpu, memory) {
        return Ok(());
    }
    Err(Refusal::Range)
}
