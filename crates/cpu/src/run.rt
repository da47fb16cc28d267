// Run.
ghost use Rattle.std.specs.Prelude.{◌≡◌};
ghost use Rattle.datapath.specs.Memory.{tallied};
ghost use Rattle.cpu.specs.Gap.{strays_in};
ghost use Rattle.cpu.specs.Run.{ran};
ghost use Rattle.cpu.specs.State.{state};

use crate::Cpu;
use datapath::memory::MEMORY;

impl Cpu {
    // At most `steps` steps; none once halted or faulted. Memory and count are lent, so that the loop moves numbers alone. Each flag is tested
    // alone, so that the compiler knows both to be 0 in the loop, and what sets one returns: with `break` each step is longer (docs/PERFORMANCE.md).
    pub fn run(self, mask: &[u8], memory: &mut [u8; MEMORY], steps: u16, gap: &mut u16) -> Cpu
        ensures memory_after { state result memory.new ≡ ran mask.now steps (state self memory.old) }
        ensures gap_after { gap.new ≡ tallied gap.old (strays_in mask.now steps (state self memory.old)) }
    {
        if self.status.halted != 0 {
            return self;
        }
        if self.status.fault != 0 {
            return self;
        }
        let mut current = self;
        for _ in 0..steps {
            current = current.go_on(mask, memory, gap);
            if current.status.halted != 0 {
                return current;
            }
            if current.status.fault != 0 {
                return current;
            }
        }
        current
    }
}
