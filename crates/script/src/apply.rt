// Applying a script's records to a machine, each with its report.
ghost use Rattle.std.specs.Prelude.{◌≡◌, ◌++◌, ◌+◌, ◌≤◌, drop, length, take};
ghost use Rattle.cpu.specs.State.{state};
ghost use Rattle.machine.specs.Machine.{machine_of, trace_of};
ghost use Rattle.machine.specs.declared.Trace.{Trace};
ghost use Rattle.machine.specs.Events.{answer_to, named_answer};
ghost use Rattle.machine.specs.Report.{reported};
ghost use Rattle.script.specs.Check.{checked, told};
ghost use Rattle.script.specs.Format.{input_of};
ghost use Rattle.script.specs.Reports.{applied, fronted, leaving, next, reports_of, stepped};

use crate::check::check_script;
use crate::format::{format, read};
use crate::{Progress, Record, Refused};
use cpu::Cpu;
use datapath::memory::MEMORY;
use machine::events::{Event, happened};
use machine::power::filled;
use machine::report::write_report;
use machine::{Answer, Machine};
use records::{RawRecord, Records};

// What a machine answers to a record.
fn answer_to(input: Record, mask: &[u8], machine: Machine) -> Answer
    ensures { result ≡ answer_to mask.now (input_of input) machine }
{
    match input {
        Record::Power(options, fill) => machine.power_on(options, &[fill; 166]),
        Record::Other(named) => machine.apply_named(named, mask),
    }
}

// One record: the machine after it, and where the next one starts. A record that is cut off, has a wrong length or is of no known kind has
// its number, and nothing moves; nor does it at the end of the script.
#[tactic(auto, using(refusals::proofs::Numbers::not_zero), unfolding(crate::specs::Reports::stepped))]
pub fn step_record(mask: &[u8], script: &[u8], at: usize, machine: Machine) -> Progress
    ensures { result ≡ stepped mask.now script.now at machine }
{
    let Some(raw) = RawRecord::new(script, at) else {
        return Progress {
            refusal: 0,
            at,
            machine,
        };
    };
    if let Err(refusal) = format(&raw) {
        return Progress {
            refusal: refusal.into(),
            at,
            machine,
        };
    }
    let answer = answer_to(read(&raw), mask, machine);
    Progress {
        refusal: answer.refusal,
        at: raw.end(),
        machine: answer.machine,
    }
}

// What a kind's name makes of a machine whose parts are lent, where nothing is refused.
#[tactic(auto, unfolding(machine::specs::Events::applied))]
fn pass_named(
    named: Option<Event>,
    cpu: Cpu,
    mask: &[u8],
    memory: &mut [u8; MEMORY],
    gap: &mut u16,
) -> Cpu
    requires { (named_answer mask.now named (machine_of (state cpu memory.old) (trace_of gap.old))).refusal ≡ 0 }
    ensures { machine_of (state result memory.new) (trace_of gap.new) ≡ (named_answer mask.now named (machine_of (state cpu memory.old) (trace_of gap.old))).machine }
{
    match named {
        Some(event) => happened(cpu, event, mask, memory, gap),
        None => cpu,
    }
}

// What a record makes of it. No test is made again: an accepted script has none that a machine refuses.
#[tactic(auto, unfolding(machine::specs::Power::power_on))]
fn pass(input: Record, cpu: Cpu, mask: &[u8], memory: &mut [u8; MEMORY], gap: &mut u16) -> Cpu
    requires { (answer_to mask.now (input_of input) (machine_of (state cpu memory.old) (trace_of gap.old))).refusal ≡ 0 }
    ensures { machine_of (state result memory.new) (trace_of gap.new) ≡ next mask.now (input_of input) (machine_of (state cpu memory.old) (trace_of gap.old)) }
{
    match input {
        Record::Power(options, fill) => filled(options, fill, memory, gap),
        Record::Other(named) => pass_named(named, cpu, mask, memory, gap),
    }
}

// The report of a machine, written at a place of the buffer.
fn put_report(cpu: Cpu, memory: &[u8; MEMORY], out: &mut [u8], at: usize)
    requires { at + 48 ≤ length out.old }
    ensures { (trace : Trace) → out.new ≡ take at out.old ++ (reported (machine_of (state cpu memory.now) trace) ++ drop (at + 48) out.old) }
{
    let end = at + 48;
    write_report(cpu, memory, &mut out[at..end]);
}

// The reports of an accepted script. The machine goes through it in parts: so no record copies it. `done` is counted by hand: the prover's borrow
// checker does not cover records, a struct with an invariant, zipped with `chunks_exact_mut`, whose items are `&mut`; and
// `enumerate` would have the loop carry a second invariant, that the records left do not overflow its count, which `done` has from the buffer.
fn put_reports(mask: &[u8], script: &[u8], out: &mut [u8])
    requires { (checked mask.now script.now (length out.old)).number ≡ 0 }
    ensures { out.new ≡ fronted (reports_of mask.now script.now) out.old }
{
    let mut done = 0;
    let blank = Machine::blank();
    let mut cpu = blank.cpu;
    let mut memory = blank.memory;
    let mut gap = blank.trace.gap;
    for raw in Records::new(script) {
        cpu = pass(read(&raw), cpu, mask, &mut memory, &mut gap);
        put_report(cpu, &memory, out, done);
        done += 48;
    }
}

// A whole script under a mask: a report for each record, or the refusal, which writes nothing.
#[tactic(auto, using(refusals::proofs::Numbers::not_zero), unfolding(crate::specs::Reports::applied))]
pub fn apply_script(mask: &[u8], script: &[u8], out: &mut [u8]) -> Result<(), Refused>
    ensures { leaving (told result) out.new ≡ applied mask.now script.now out.old }
{
    check_script(mask, script, out.len())?;
    put_reports(mask, script, out);
    Ok(())
}
