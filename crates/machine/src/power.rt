// Power-on and RES.
ghost use Rattle.std.specs.Prelude.{◌≡◌, length, replicate};
ghost use Rattle.cpu.specs.State.{state};
ghost use Rattle.refusals.specs.Numbers.{refusal_of as number_given};
ghost use Rattle.machine.specs.Machine.{machine_of, no_trace, trace_of};
ghost use Rattle.machine.specs.Power.{after_res, blank, power_on, power_refusal, powered, started};
ghost use Rattle.machine.specs.Events.{resetting};

use crate::ranges::{all_nibbles, options_ok, sound};
use crate::{Answer, Machine, Trace};
use cpu::{Control, Cpu, Interrupts, Options, Outputs, Pins, Registers, Stack, Status, Timer};
use datapath::memory::MEMORY;
use isa::ProgramAddress;
use refusals::Refusal;

// The refusal of a power-on.
#[tactic(auto, unfolding(crate::specs::Power::power_refusal))]
fn check_power(options: Options, image: &[u8]) -> Result<(), Refusal>
    ensures { number_given result ≡ power_refusal options image.now }
{
    if image.len() != 166 {
        return Err(Refusal::Buffer);
    }
    if !all_nibbles(image) {
        return Err(Refusal::Value);
    }
    if !options_ok(options) {
        return Err(Refusal::Choice);
    }
    Ok(())
}

// The processor after RES, with what RES keeps.
fn after_res(registers: Registers, pins: Pins, options: Options, cycles: u32) -> Cpu
    ensures { result ≡ after_res registers pins options cycles }
{
    Cpu {
        registers,
        control: Control {
            pc: ProgramAddress(0),
            cf: 0,
            tf: 0,
        },
        timer: Timer {
            count: 0,
            running: 0,
        },
        interrupts: Interrupts {
            enabled: 0,
            held: 0,
            level: 0,
        },
        stack: Stack {
            address: ProgramAddress(0),
            carry: 0,
        },
        status: Status {
            halted: 0,
            fault: 0,
        },
        outputs: Outputs {
            pa: 15,
            channel: 16,
            mode: 0,
        },
        pins,
        options,
        cycles,
    }
}

// RES on a processor: what it keeps is its own.
pub(crate) fn reset_cpu(cpu: Cpu) -> Cpu
    ensures { result ≡ after_res cpu.registers cpu.pins cpu.options cpu.cycles }
{
    after_res(cpu.registers, cpu.pins, cpu.options, cpu.cycles)
}

// The processor that a power-on makes of its registers and options.
fn started(registers: Registers, options: Options) -> Cpu
    ensures { result ≡ started registers options }
{
    let pins = Pins {
        pm: 15,
        ps: 15,
        pp: 15,
        int: 1,
    };
    after_res(registers, pins, options, 0)
}

// Nothing is left behind yet.
fn no_trace() -> Trace
    ensures { result ≡ no_trace }
{
    Trace { gap: 0 }
}

// The processor that a power-on makes of options and an image, which fills the data memory that is lent.
#[tactic(auto, unfolding(crate::specs::Power::powered))]
fn powered(options: Options, image: &[u8], memory: &mut [u8; MEMORY]) -> Cpu
    requires { length image.now ≡ 166 }
    ensures { machine_of (state result memory.new) no_trace ≡ powered options image.now }
{
    memory.copy_from_slice(&image[6..]); // all after ACC and R0-R4
    let registers = Registers {
        acc: image[0],
        r0: image[1],
        r1: image[2],
        r2: image[3],
        r3: image[4],
        r4: image[5],
    };
    started(registers, options)
}

// The machine that a power-on makes of options and one nibble that fills the image, where data memory and the trace's fields are lent.
pub fn filled(options: Options, x: u8, memory: &mut [u8; MEMORY], gap: &mut u16) -> Cpu
    ensures { machine_of (state result memory.new) (trace_of gap.new) ≡ powered options (replicate 166 x) }
{
    *gap = no_trace().gap;
    powered(options, &[x; 166], memory)
}

impl Machine {
    // A machine before its first power-on: 0 but for what RES sets. Its options are out of range, so every event on it is refused.
    #[tactic(auto, unfolding(crate::specs::Power::blank))]
    pub fn blank() -> Machine
        ensures { result ≡ blank }
    {
        let registers = Registers {
            acc: 0,
            r0: 0,
            r1: 0,
            r2: 0,
            r3: 0,
            r4: 0,
        };
        let pins = Pins {
            pm: 0,
            ps: 0,
            pp: 0,
            int: 0,
        };
        let options = Options {
            rate: 0,
            commons: 0,
            pm: 0,
            ps: 0,
            pp: 0,
        };
        let cpu = after_res(registers, pins, options, 0);
        Machine {
            cpu,
            memory: [0; MEMORY],
            trace: no_trace(),
        }
    }

    // Power-on. A refused one leaves the machine as it was.
    #[tactic(auto, unfolding(crate::specs::Power::power_refusal, crate::specs::Power::power_on))]
    pub fn power_on(mut self, options: Options, image: &[u8]) -> Answer
        ensures { result ≡ power_on options image.now self }
    {
        if let Err(refusal) = check_power(options, image) {
            return Answer::refused(self, refusal);
        }
        let next = powered(options, image, &mut self.memory);
        self.cpu = next;
        self.trace = no_trace();
        Answer::done(self)
    }

    // RES. A refused one leaves the machine as it was.
    #[tactic(auto, unfolding(crate::specs::Events::happened, crate::specs::Events::mask_ok, crate::specs::Events::values_ok, crate::specs::Events::refusal_of, crate::specs::Events::applied))]
    pub fn reset(mut self) -> Answer
        ensures { result ≡ resetting self }
    {
        if sound(self.cpu, &self.memory) {
            let next = reset_cpu(self.cpu);
            self.cpu = next;
            return Answer::done(self);
        }
        Answer::refused(self, Refusal::Range)
    }
}
