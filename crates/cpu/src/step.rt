// One step: an interrupt taken, or one instruction, and the cycles that it spends.
ghost use Rattle.std.specs.Prelude.{◌≡◌, Some};
ghost use Rattle.datapath.specs.Memory.{tallied};
ghost use Rattle.cpu.specs.Gap.{strays_at, strays_by};
ghost use Rattle.cpu.specs.State.{state};
ghost use Rattle.cpu.specs.Step.{cleared, entered, executed, step, ticked, timed, vector, vector_of};

use crate::Cpu;
use datapath::memory::MEMORY;
use datapath::timer::{Count, advance, clock};
use isa::decoder::decode;
use rom::reader::{code_at, moved_by};
use rom::timing::{cycles_of, length_of};
use std::num::wrapping_add_u32;

// What calls for an interrupt.
#[derive(Clone, Copy)]
pub(crate) enum Interrupt {
    // The held edge.
    Edge,
    // TF.
    Timer,
}

impl Cpu {
    // The timer's new count; passing 255 to 0 sets TF.
    pub fn timed(mut self, k: Count) -> Cpu
        ensures { result ≡ timed k self }
    {
        let count = k.count;
        self.timer.count = count;
        if k.passed == 1 {
            self.control.tf = 1;
        }
        self
    }

    // `spent` cycles go by: a running timer moves on by the clocks since the old cycle count.
    #[tactic(auto, unfolding(crate::specs::Step::ticked))]
    pub(crate) fn tick(mut self, spent: u8) -> Cpu
        ensures { result ≡ ticked spent self }
    {
        let cycles = wrapping_add_u32(self.cycles, spent as u32);
        if self.timer.running == 1 {
            let n = clock(self.options.rate, self.cycles, spent);
            let k = advance(self.timer.count, n);
            let mut next = self.timed(k);
            next.cycles = cycles;
            return next;
        }
        self.cycles = cycles;
        self
    }

    // An interrupt is taken: PC and CF go to the stack, and what called for it is cleared.
    #[tactic(auto, unfolding(crate::specs::Step::entered))]
    pub(crate) fn enter(mut self, interrupt: Interrupt) -> Cpu
        ensures { result ≡ entered (vector (Some interrupt)) (cleared interrupt self) }
    {
        let pc = self.control.pc.0;
        let cf = self.control.cf;
        self.stack.address.0 = pc;
        self.stack.carry = cf;
        self.interrupts.level = 2;
        match interrupt {
            Interrupt::Edge => {
                self.control.pc.0 = 8;
                self.interrupts.held = 0;
            }
            Interrupt::Timer => {
                self.control.pc.0 = 4;
                self.control.tf = 0;
            }
        }
        self.tick(2)
    }

    // The interrupt to take: a held edge goes before TF.
    #[tactic(auto, unfolding(crate::specs::Step::vector_of))]
    pub(crate) fn pending(self) -> Option<Interrupt>
        ensures { vector result ≡ vector_of self }
    {
        if self.interrupts.enabled != 1 || self.interrupts.level != 0 {
            return None;
        }
        if self.interrupts.held == 1 {
            return Some(Interrupt::Edge);
        }
        if self.control.tf == 1 {
            return Some(Interrupt::Timer);
        }
        None
    }

    // One instruction, on a processor without a fault. One that faults sets the fault alone, so the PC goes back and no copy is kept.
    // Length and cycles are asked for by the instruction, the length first: behind the decoder's jump both are constants.
    fn execute(mut self, mask: &[u8], memory: &mut [u8; MEMORY], gap: &mut u16) -> Cpu
        requires { self.status.fault ≡ 0 }
        ensures memory_after { state result memory.new ≡ executed mask.now (state self memory.old) }
        ensures gap_after { gap.new ≡ tallied gap.old (strays_at mask.now (state self memory.old)) }
    {
        let before = self.control.pc.0;
        let code = code_at(mask, before);
        let Some(instruction) = decode(code.first, code.second) else {
            self.status.fault = 1;
            return self;
        };
        let size = length_of(instruction);
        let spent = cycles_of(instruction);
        let next = moved_by(before, size);
        self.control.pc.0 = next;
        let mut after = self.effect(instruction, mask, memory, gap);
        if after.status.fault != 0 {
            after.control.pc.0 = before;
            return after;
        }
        after.tick(spent)
    }

    // A step of a processor that is neither halted nor faulted.
    pub(crate) fn go_on(self, mask: &[u8], memory: &mut [u8; MEMORY], gap: &mut u16) -> Cpu
        requires { (self.status.halted ≡ 0) × (self.status.fault ≡ 0) }
        ensures memory_after { state result memory.new ≡ step mask.now (state self memory.old) }
        ensures gap_after { gap.new ≡ tallied gap.old (strays_by mask.now (state self memory.old)) }
    {
        if let Some(interrupt) = self.pending() {
            return self.enter(interrupt);
        }
        self.execute(mask, memory, gap)
    }

    // One step, on the data memory that is lent.
    #[tactic(auto, unfolding(crate::specs::Step::step, crate::specs::Gap::strays_by, datapath::specs::Memory::tallied))]
    pub fn step(self, mask: &[u8], memory: &mut [u8; MEMORY], gap: &mut u16) -> Cpu
        ensures memory_after { state result memory.new ≡ step mask.now (state self memory.old) }
        ensures gap_after { gap.new ≡ tallied gap.old (strays_by mask.now (state self memory.old)) }
    {
        if self.status.halted != 0 || self.status.fault != 0 {
            return self;
        }
        self.go_on(mask, memory, gap)
    }
}
