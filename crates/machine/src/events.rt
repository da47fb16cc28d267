// The events other than power-on: methods that take the machine and hand it back with their answer.
ghost use Rattle.std.specs.Prelude.{◌≡◌, ℕ, true, [], List, None};
ghost use Rattle.cpu.specs.State.{state};
ghost use Rattle.refusals.specs.Numbers.{refusal_of as number_given};
ghost use Rattle.machine.specs.Machine.{machine_of, trace_of};
ghost use Rattle.machine.specs.declared.Trace.{Trace};
ghost use Rattle.machine.specs.Events.{applied, clocked, counting, event_of, fallen, happened, interrupted, mask_ok, named_answer, pinned, refusal_of, stepping, values_ok, wakes, woken};

use crate::power::reset_cpu;
use crate::ranges::{check_sound, sound};
use crate::{Answer, Machine};
use cpu::Cpu;
use datapath::memory::MEMORY;
use datapath::timer::advance;
use refusals::Refusal;
use rom::reader::check_mask;

// Kinds 2 to 6 of document 01's records.
#[derive(Clone, Copy)]
pub enum Event {
    // Run: at most this many steps.
    Run(u16),
    // The levels of PM, PS and PP.
    Pins(u8, u8, u8),
    // The level of INT.
    Int(u8),
    // Rising edges of TMCLK.
    Tmclk(u16),
    // RES.
    Res,
}

// The event of a kind, if it names one. What the kind does not name is not looked at.
#[tactic(auto, unfolding(crate::specs::Events::event_of))]
pub fn event_of(kind: u16, count: u16, a: u8, b: u8, c: u8) -> Option<Event>
    ensures { result ≡ event_of kind count a b c }
{
    match kind {
        2 => Some(Event::Run(count)),
        3 => Some(Event::Pins(a, b, c)),
        4 => Some(Event::Int(a)),
        5 => Some(Event::Tmclk(count)),
        6 => Some(Event::Res),
        _ => None,
    }
}

// The bits that fall and whose wake bit is 1.
fn fallen(old: u8, new: u8, wake: u8) -> u8
    ensures { result ≡ fallen old new wake }
{
    old & (new ^ 15) & wake
}

// Whether these levels wake a halted processor.
fn wakes(pm: u8, ps: u8, pp: u8, c: Cpu) -> bool
    ensures { result ≡ wakes pm ps pp c }
{
    c.status.halted == 1
        && (fallen(c.pins.pm, pm, c.options.pm) != 0
            || fallen(c.pins.ps, ps, c.options.ps) != 0
            || fallen(c.pins.pp, pp, c.options.pp) != 0)
}

// An edge is held, and the processor wakes.
fn woken(mut c: Cpu) -> Cpu
    ensures { result ≡ woken c }
{
    c.interrupts.held = 1;
    c.status.halted = 0;
    c
}

// Whether TMCLK moves the timer, which it does in HALT too.
fn clocked(c: Cpu) -> bool
    ensures { result ≡ clocked c }
{
    c.options.rate == 255 && c.timer.running == 1
}

// New levels of the ports: a falling wake bit wakes a halted processor.
#[tactic(auto, unfolding(crate::specs::Events::pinned))]
fn pinned(mut c: Cpu, pm: u8, ps: u8, pp: u8) -> Cpu
    ensures { result ≡ pinned pm ps pp c }
{
    if wakes(pm, ps, pp, c) {
        c = woken(c);
    }
    c.pins.pm = pm;
    c.pins.ps = ps;
    c.pins.pp = pp;
    c
}

// A new level of INT: a falling edge is always held and wakes.
#[tactic(auto, unfolding(crate::specs::Events::interrupted))]
fn interrupted(mut c: Cpu, level: u8) -> Cpu
    ensures { result ≡ interrupted level c }
{
    if c.pins.int == 1 && level == 0 {
        c = woken(c);
    }
    c.pins.int = level;
    c
}

// Rising edges of TMCLK.
#[tactic(auto, unfolding(crate::specs::Events::counting))]
fn counting(c: Cpu, n: u16) -> Cpu
    ensures { result ≡ counting n c }
{
    if clocked(c) {
        let k = advance(c.timer.count, n);
        return c.timed(k);
    }
    c
}

// Refusal 3 is the answer to an event where this is false.
#[tactic(auto, unfolding(crate::specs::Events::values_ok))]
pub fn values_ok(event: Event) -> bool
    ensures { result ≡ values_ok event }
{
    match event {
        Event::Pins(pm, ps, pp) => pm < 16 && ps < 16 && pp < 16,
        Event::Int(level) => level < 2,
        Event::Run(_) | Event::Tmclk(_) | Event::Res => true,
    }
}

// The refusal of a Run: the lowest number wins. It does not look at the trace.
#[tactic(auto, unfolding(crate::specs::Events::refusal_of, crate::specs::Events::mask_ok, crate::specs::Events::values_ok))]
fn check_run(cpu: Cpu, memory: &[u8; MEMORY], mask: &[u8]) -> Result<(), Refusal>
    ensures { (n : ℕ) (trace : Trace) → number_given result ≡ refusal_of mask.now (Event.Run n) (machine_of (state cpu memory.now) trace) }
{
    check_mask(mask)?;
    check_sound(cpu, memory)
}

// The refusal of an event whose mask is as it should be: Run alone has one.
#[tactic(auto, unfolding(crate::specs::Events::refusal_of))]
fn check_event(cpu: Cpu, memory: &[u8; MEMORY], event: Event) -> Result<(), Refusal>
    ensures { (mask : List ℕ) (trace : Trace) → mask_ok mask event ≡ true → number_given result ≡ refusal_of mask event (machine_of (state cpu memory.now) trace) }
{
    if !values_ok(event) {
        return Err(Refusal::Value);
    }
    check_sound(cpu, memory)
}

// What pins, INT and TMCLK make of the processor, all that they change. An arm for RES here would cost each step of a Run two instructions
// (docs/PERFORMANCE.md).
#[tactic(auto, unfolding(crate::specs::Events::happened))]
fn changed(cpu: Cpu, event: Event) -> Cpu
    ensures { (mask memory : List ℕ) (trace : Trace) → ((n : ℕ) → event ≡ Event.Run n → ⊥) → (event ≡ Event.Res → ⊥) → machine_of (state result memory) trace ≡ happened mask event (machine_of (state cpu memory) trace) }
{
    match event {
        Event::Pins(pm, ps, pp) => pinned(cpu, pm, ps, pp),
        Event::Int(level) => interrupted(cpu, level),
        Event::Tmclk(n) => counting(cpu, n),
        _ => cpu,
    }
}

// What an event makes of the processor, and of the data memory and the trace's fields where they are lent.
#[tactic(auto, unfolding(crate::specs::Events::happened))]
pub fn happened(
    cpu: Cpu,
    event: Event,
    mask: &[u8],
    memory: &mut [u8; MEMORY],
    gap: &mut u16,
) -> Cpu
    ensures { machine_of (state result memory.new) (trace_of gap.new) ≡ happened mask.now event (machine_of (state cpu memory.old) (trace_of gap.old)) }
{
    match event {
        Event::Run(n) => cpu.run(mask, memory, n, gap),
        Event::Res => reset_cpu(cpu),
        _ => changed(cpu, event),
    }
}

impl Machine {
    // Run, on the machine's own memory. The machine is put together anew behind it: a store to each field makes the loop a third longer
    // (docs/PERFORMANCE.md).
    #[tactic(auto, unfolding(crate::specs::Events::applied, crate::specs::Events::happened))]
    fn run(mut self, n: u16, mask: &[u8]) -> Answer
        ensures { result ≡ applied mask.now (Event.Run n) self }
    {
        if let Err(judged) = check_run(self.cpu, &self.memory, mask) {
            return Answer::refused(self, judged);
        }
        let mut trace = self.trace;
        let cpu = self.cpu.run(mask, &mut self.memory, n, &mut trace.gap);
        let memory = self.memory;
        Answer {
            refusal: 0,
            machine: Machine { cpu, memory, trace },
        }
    }

    // Pins, INT or TMCLK: the processor alone changes.
    fn change(mut self, event: Event) -> Answer
        ensures { (mask : List ℕ) → ((n : ℕ) → event ≡ Event.Run n → ⊥) → (event ≡ Event.Res → ⊥) → result ≡ applied mask event self }
    {
        if let Err(refusal) = check_event(self.cpu, &self.memory, event) {
            return Answer::refused(self, refusal);
        }
        let next = changed(self.cpu, event);
        self.cpu = next;
        Answer::done(self)
    }

    // An event. A refused one leaves the machine as it was.
    #[tactic(auto, unfolding(crate::specs::Events::applied, crate::specs::Events::refusal_of, crate::specs::Events::mask_ok, crate::specs::Events::happened))]
    pub fn apply(mut self, event: Event, mask: &[u8]) -> Answer
        ensures { result ≡ applied mask.now event self }
    {
        match event {
            Event::Run(n) => self.run(n, mask),
            Event::Res => self.reset(),
            _ => self.change(event),
        }
    }

    // A kind that names no event is refused with 7, but a machine out of range comes first.
    fn unknown(self) -> Answer
        ensures { result ≡ named_answer [] None self }
    {
        if sound(self.cpu, &self.memory) {
            return Answer::refused(self, Refusal::Kind);
        }
        Answer::refused(self, Refusal::Range)
    }

    // What a kind names: its event, or the refusal of an unknown kind.
    pub fn apply_named(mut self, named: Option<Event>, mask: &[u8]) -> Answer
        ensures { result ≡ named_answer mask.now named self }
    {
        match named {
            Some(event) => self.apply(event, mask),
            None => self.unknown(),
        }
    }

    // One step alone, which answers as a Run of one step does.
    #[tactic(auto, unfolding(cpu::specs::Run::yielded, crate::specs::Events::applied, crate::specs::Events::happened, cpu::specs::Run::ran))]
    pub fn step(mut self, mask: &[u8]) -> Answer
        ensures { result ≡ stepping mask.now self }
    {
        if let Err(refusal) = check_run(self.cpu, &self.memory, mask) {
            return Answer::refused(self, refusal);
        }
        let mut trace = self.trace;
        let next = self.cpu.step(mask, &mut self.memory, &mut trace.gap);
        self.cpu = next;
        self.trace = trace;
        Answer::done(self)
    }
}
