// A script's records, applied one after the other.
ghost use Rattle.std.specs.Prelude.{◌≡◌};
ghost use Rattle.machine.specs.Power.{blank};

use machine::Machine;
use script::apply::step_record;

// Where the next record starts, and the machine that it is applied to.
#[derive(Clone, Copy)]
pub(crate) struct Steps<'a> {
    mask: &'a [u8],
    script: &'a [u8],
    at: usize,
    machine: Machine,
}

impl<'a> Steps<'a> {
    pub(crate) fn new(mask: &'a [u8], script: &'a [u8]) -> Self
        ensures { (result.mask.now ≡ mask.now) × (result.script.now ≡ script.now) × (result.at ≡ 0) × (result.machine ≡ blank) }
    {
        Steps {
            mask,
            script,
            at: 0,
            machine: Machine::blank(),
        }
    }
}

// The machine after each record. Where a step is refused nothing more comes; a script that was checked has none.
impl<'a> Iterator for Steps<'a> {
    ghost use Rattle.std.specs.Prelude.{◌-◌, length};
    ghost use Rattle.std.specs.Iterator.{at_most};
    ghost use Rattle.player.specs.Steps.{Stepping};

    type Item = Machine;

    ghost next_gives = { Stepping };

    ghost remaining = { λ s. at_most (length s.script.now - s.at) };

    #[tactic(auto, unfolding(script::specs::Reports::stepped))]
    fn next(&mut self) -> Option<Machine> {
        if self.script.len() <= self.at {
            return None;
        }
        let step = step_record(self.mask, self.script, self.at, self.machine);
        if step.refusal != 0 {
            return None;
        }
        self.at = step.at;
        self.machine = step.machine;
        Some(step.machine)
    }
}
