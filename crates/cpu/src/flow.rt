// Branches, subroutines and table reads.
ghost use Rattle.std.specs.Prelude.{◌≡◌, ◌+◌, ◌*◌, ◌<◌};
ghost use Rattle.isa.specs.Choice.{pick};
ghost use Rattle.rom.specs.Fetching.{branch_to, byte_at};
ghost use Rattle.cpu.specs.Effect.{called, page_of, returned, returned_with_carry};
ghost use Rattle.cpu.specs.State.{address};
ghost use Rattle.cpu.specs.declared.Cpu.{Cpu};

use crate::Cpu;
use isa::{Page, ProgramAddress};
use rom::reader::byte_at;

// Where a conditional branch goes: bit 11 of the moved PC stays. On numbers alone, as what an instruction does on many ways should be: the
// processor then stays in registers.
pub(crate) fn branch_to(taken: bool, pc: u16, target: u16) -> u16
    ensures { result ≡ pick taken (branch_to pc (address target)) pc }
{
    if taken {
        return pc / 2048 * 2048 + target % 2048;
    }
    pc
}

// The page of a table read, by the moved PC.
pub(crate) fn page(p: Page, pc: u16) -> u16
    ensures value { (c : Cpu) → c.control.pc.0 ≡ pc → result ≡ page_of p c }
    ensures upper_bound { result < 16 }
{
    match p {
        Page::Current => pc / 256 % 16,
        Page::F => 15,
    }
}

// The ROM byte that a table read takes: its page, then two nibbles.
pub(crate) fn table(mask: &[u8], page: u16, high: u8, low: u8) -> u8
    requires { page < 16 }
    ensures { result ≡ byte_at mask.now (page * 256 + 16 * high + low) }
{
    byte_at(mask, page * 256 + 16 * high as u16 + low as u16)
}

impl Cpu {
    // CALL: the stack carry stays.
    #[tactic(auto, unfolding(crate::specs::Effect::called))]
    pub(crate) fn call(mut self, target: ProgramAddress) -> Cpu
        ensures { result ≡ called target self }
    {
        if self.interrupts.level == 0 {
            let pc = self.control.pc.0;
            let to = target.0;
            self.stack.address.0 = pc;
            self.interrupts.level = 1;
            self.control.pc.0 = to;
            return self;
        }
        self.status.fault = 2;
        self
    }

    // RET.
    #[tactic(auto, unfolding(crate::specs::Effect::returned))]
    pub(crate) fn ret(mut self) -> Cpu
        ensures { result ≡ returned self }
    {
        if self.interrupts.level == 0 {
            self.status.fault = 3;
            return self;
        }
        let pc = self.stack.address.0;
        self.control.pc.0 = pc;
        self.interrupts.level = 0;
        self
    }

    // RETI: CF comes back too. No `ret` and then the carry: where `ret` faults the carry stays, and the level would be asked for twice.
    #[tactic(auto, unfolding(crate::specs::Effect::returned_with_carry))]
    pub(crate) fn reti(mut self) -> Cpu
        ensures { result ≡ returned_with_carry self }
    {
        if self.interrupts.level == 0 {
            self.status.fault = 3;
            return self;
        }
        let pc = self.stack.address.0;
        let cf = self.stack.carry;
        self.control.pc.0 = pc;
        self.control.cf = cf;
        self.interrupts.level = 0;
        self
    }
}
