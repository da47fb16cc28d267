// The query of the count of strays: document 02, wish 6.
ghost use Rattle.std.specs.Prelude.{◌≡◌};
ghost use Rattle.machine.specs.Gap.{gap_count};

use crate::Machine;
use crate::ranges::check_sound;
use refusals::Refusal;

impl Machine {
    // How many data accesses fell in 80h-DFh since the last power-on; 65,535 for that many or more.
    pub fn gap_count(self) -> Result<u16, Refusal>
        ensures { result ≡ gap_count self }
    {
        check_sound(self.cpu, &self.memory)?;
        Ok(self.trace.gap)
    }
}
