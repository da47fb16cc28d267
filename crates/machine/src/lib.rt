// The machine: processor, data memory and trace by value, power-on, Run and the other events, display, report and the count's query.
#![tactic(auto)]

ghost use Rattle.std.specs.Prelude.{◌≡◌};
ghost use Rattle.refusals.specs.Numbers.{number_of};

pub mod events;
pub mod gap;
pub mod power;
pub mod ranges;
pub mod report;

use cpu::Cpu;
use datapath::memory::MEMORY;
use refusals::Refusal;

// What running leaves behind, which decides nothing else. `gap` counts the accesses to 80h-DFh since the last power-on, and stops at 65,535.
#[repr(C)]
#[derive(Clone, Copy)]
pub struct Trace {
    pub gap: u16,
}

// `memory` is data memory 00h-7Fh, then E0h-FFh, a nibble each.
#[repr(C)]
#[derive(Clone, Copy)]
pub struct Machine {
    pub cpu: Cpu,
    pub memory: [u8; MEMORY],
    pub trace: Trace,
}

// What an event gives back: document 01's refusal number, 0 for none, and the machine. A refused machine is as it was. It is no Result: an Err
// would not hand the machine back (document 01's form), and `Session` and the hosts have the number (machine/specs/Events). The machine stands
// first, on no padding: so the compiler makes an answer where it is to stand, and not in a second place that is then copied.
#[derive(Clone, Copy)]
pub struct Answer {
    pub machine: Machine,
    pub refusal: u8,
}

impl Answer {
    // A refused machine is as it was.
    pub(crate) fn refused(machine: Machine, refusal: Refusal) -> Answer
        ensures { result ≡ record { machine = machine; refusal = number_of refusal } }
    {
        Answer {
            machine,
            refusal: u8::from(refusal),
        }
    }

    pub(crate) fn done(machine: Machine) -> Answer
        ensures { result ≡ record { machine = machine; refusal = 0 } }
    {
        Answer {
            machine,
            refusal: 0,
        }
    }
}
