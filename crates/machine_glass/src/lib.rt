// What an operator sees of a machine: the picture on its glass, and what it is read as.
#![tactic(auto)]

ghost use Rattle.std.specs.Prelude.{◌≡◌};
ghost use Rattle.machine_glass.specs.Glass.{Sees, answered, picture_of};

use glass::read::read;
use glass::{Reading, Unseen};
use machine::Machine;
use refusals::Refusal;

// Display nibbles 0 to 7, as a report shows them: dark asleep, and without bit 3 on three commons.
pub fn picture_of(machine: Machine) -> Result<[u8; 8], Refusal>
    ensures { answered result ≡ picture_of machine }
{
    let mut report = [0u8; 48];
    machine.report(&mut report)?;
    Ok([
        report[16], report[17], report[18], report[19], report[20], report[21], report[22],
        report[23],
    ])
}

// What the picture of a machine is read as, or why the machine is refused.
pub fn sight_of(machine: Machine) -> Result<Result<Reading, Unseen>, Refusal>
    ensures { Sees machine result }
{
    let picture = picture_of(machine)?;
    Ok(read(&picture))
}
