// What an instruction reads and writes: data memory and registers.
ghost use Rattle.std.specs.Prelude.{◌≡◌, [], ◌∷◌};
ghost use Rattle.datapath.specs.Memory.{strays, tallied};
ghost use Rattle.cpu.specs.Effect.{nibble_at, place_of, register_of, taking, with_nibble, with_pair, with_register};
ghost use Rattle.cpu.specs.State.{state, with_acc};

use crate::Cpu;
use datapath::alu::Sum;
use datapath::memory::{MEMORY, load, pointer, store, tally};
use isa::{DataAddress, Pointer};

impl Cpu {
    // The address in a register pair.
    pub(crate) fn place(self, p: Pointer) -> DataAddress
        ensures { result ≡ place_of p self }
    {
        match p {
            Pointer::R1R0 => pointer(self.registers.r1, self.registers.r0),
            Pointer::R3R2 => pointer(self.registers.r3, self.registers.r2),
        }
    }

    // The nibble there. `gap` counts the read where it strays.
    #[tactic(auto, using(datapath::proofs::Tally::tallied_one))]
    pub(crate) fn operand(self, p: Pointer, memory: &[u8; MEMORY], gap: &mut u16) -> u8
        ensures value { result ≡ nibble_at p (state self memory.now) }
        ensures gap_after { gap.new ≡ tallied gap.old (strays (place_of p self ∷ [])) }
    {
        let a = self.place(p);
        let x = load(memory, a);
        tally(gap, x.stray);
        x.nibble
    }

    // Writes the nibble there. `gap` counts the write where it strays.
    #[tactic(auto, using(datapath::proofs::Tally::tallied_one))]
    pub(crate) fn put(self, p: Pointer, memory: &mut [u8; MEMORY], value: u8, gap: &mut u16)
        ensures memory_after { state self memory.new ≡ with_nibble p value (state self memory.old) }
        ensures gap_after { gap.new ≡ tallied gap.old (strays (place_of p self ∷ [])) }
    {
        let a = self.place(p);
        let stray = store(memory, a, value);
        tally(gap, stray);
    }

    // A sum goes to ACC and CF.
    pub(crate) fn take(mut self, x: Sum) -> Cpu
        ensures { result ≡ taking x self }
    {
        let value = x.value;
        let carry = x.carry;
        self.registers.acc = value;
        self.control.cf = carry;
        self
    }

    pub(crate) fn set_acc(mut self, value: u8) -> Cpu
        ensures { result ≡ with_acc value self }
    {
        self.registers.acc = value;
        self
    }

    // Rn.
    #[tactic(auto, unfolding(crate::specs::Effect::register_of))]
    pub(crate) fn register(self, n: u8) -> u8
        ensures { result ≡ register_of n self }
    {
        match n {
            0 => self.registers.r0,
            1 => self.registers.r1,
            2 => self.registers.r2,
            3 => self.registers.r3,
            _ => self.registers.r4,
        }
    }

    #[tactic(auto, unfolding(crate::specs::Effect::with_register))]
    pub(crate) fn set_register(mut self, n: u8, value: u8) -> Cpu
        ensures { result ≡ with_register n value self }
    {
        match n {
            0 => self.registers.r0 = value,
            1 => self.registers.r1 = value,
            2 => self.registers.r2 = value,
            3 => self.registers.r3 = value,
            _ => self.registers.r4 = value,
        }
        self
    }

    // MOV R1R0,XXH and MOV R3R2,XXH.
    pub(crate) fn set_pair(mut self, p: Pointer, low: u8, high: u8) -> Cpu
        ensures { result ≡ with_pair p low high self }
    {
        match p {
            Pointer::R1R0 => {
                self.registers.r0 = low;
                self.registers.r1 = high;
                self
            }
            Pointer::R3R2 => {
                self.registers.r2 = low;
                self.registers.r3 = high;
                self
            }
        }
    }
}
