// The display and the report of a machine.
ghost use Rattle.std.specs.Prelude.{◌≡◌, ◌++◌, ℕ, ◌<◌, ◌%◌, eqb, length, take};
ghost use Rattle.std.specs.Int.Bits.{bit_and};
ghost use Rattle.isa.specs.Choice.{pick};
ghost use Rattle.cpu.specs.State.{state};
ghost use Rattle.refusals.specs.Numbers.{refusal_of};
ghost use Rattle.machine.specs.Machine.{machine_of};
ghost use Rattle.machine.specs.declared.Trace.{Trace};
ghost use Rattle.machine.specs.Report.{heading, places, report, reported, reporting, shown};

use crate::Machine;
use crate::ranges::check_sound;
use cpu::Cpu;
use datapath::memory::{MEMORY, load};
use isa::DataAddress;
use refusals::Refusal;

// The bits of a display nibble that show: with 3 commons bit 3 shows 0, and a halted machine shows nothing.
fn lit(cpu: Cpu) -> u8
    ensures { (x : ℕ) → x < 256 → bit_and x result ≡ pick (eqb cpu.status.halted 1) 0 (pick (eqb cpu.options.commons 3) (x % 8) x) }
{
    if cpu.status.halted == 1 {
        return 0;
    }
    if cpu.options.commons == 3 {
        return 7;
    }
    255
}

// The first 16 bytes.
fn heading(cpu: Cpu) -> [u8; 16]
    ensures { result ≡ heading cpu }
{
    let pc = cpu.control.pc.0.to_le_bytes();
    let cycles = cpu.cycles.to_le_bytes();
    [
        44,
        0,
        16,
        0,
        pc[0],
        pc[1],
        cycles[0],
        cycles[1],
        cycles[2],
        cycles[3],
        cpu.interrupts.level,
        cpu.status.halted,
        cpu.status.fault,
        cpu.outputs.pa,
        cpu.outputs.channel,
        cpu.outputs.mode,
    ]
}

// Writes them. No byte of a report tells of the trace.
fn put_heading(cpu: Cpu, out: &mut [u8])
    requires { length out.old ≡ 48 }
    ensures { take 16 out.new ≡ heading cpu }
{
    out[..16].copy_from_slice(&heading(cpu));
}

// Writes the 32 display nibbles after them: nibble `s` is the one at E0h + s. What shows is the same bits of each: no test in the loop.
fn put_display(cpu: Cpu, memory: &[u8; MEMORY], out: &mut [u8])
    requires { length out.old ≡ 48 }
    ensures { out.new ≡ take 16 out.old ++ places 32 (shown cpu memory.now) 0 }
{
    let lit = lit(cpu);
    for (s, byte) in out[16..].iter_mut().enumerate() {
        *byte = load(memory, DataAddress(0xe0 + s as u8)).nibble & lit;
    }
}

// Writes the 48 bytes of a report. A buffer of another length stays as it is.
pub fn write_report(cpu: Cpu, memory: &[u8; MEMORY], out: &mut [u8])
    ensures { (trace : Trace) → out.new ≡ pick (eqb (length out.old) 48) (reported (machine_of (state cpu memory.now) trace)) out.old }
{
    if out.len() == 48 {
        put_heading(cpu, out);
        put_display(cpu, memory, out);
    }
}

impl Machine {
    // Writes the report of the machine, or refuses the buffer's length or the machine: then nothing is written.
    #[tactic(auto, unfolding(crate::specs::Report::report))]
    pub fn report(self, out: &mut [u8]) -> Result<(), Refusal>
        ensures { reporting (refusal_of result) out.new ≡ report self out.old }
    {
        if out.len() != 48 {
            return Err(Refusal::Buffer);
        }
        check_sound(self.cpu, &self.memory)?;
        write_report(self.cpu, &self.memory, out);
        Ok(())
    }
}
