// The processor: document 01's machine but for its data memory, in small structs of numbers, in the document's order. A flag is 0 or 1.
// Structs of numbers alone are kept in registers once their callees are inlined; the data memory and the count of strays are lent beside them, each by
// itself: `load` and `store` take the memory, `tally` the count, so a struct that lends both would be taken apart at each call. They are laid out as C
// does, for hosts that lend a machine.
#![tactic(auto)]

mod effect;
mod flow;
mod moves;
mod run;
mod step;

use isa::ProgramAddress;

// ACC and R0 to R4, nibbles.
#[repr(C)]
#[derive(Clone, Copy)]
pub struct Registers {
    pub acc: u8,
    pub r0: u8,
    pub r1: u8,
    pub r2: u8,
    pub r3: u8,
    pub r4: u8,
}

// PC, 0 to 4,095; CF and TF, the carry and timer flags.
#[repr(C)]
#[derive(Clone, Copy)]
pub struct Control {
    pub pc: ProgramAddress,
    pub cf: u8,
    pub tf: u8,
}

// The timer's count, 8 bits, and its running flag.
#[repr(C)]
#[derive(Clone, Copy)]
pub struct Timer {
    pub count: u8,
    pub running: u8,
}

// The enable flag; the held edge (document 01's term: a falling edge not yet taken); the level, 0 main, 1 subroutine, 2 interrupt.
#[repr(C)]
#[derive(Clone, Copy)]
pub struct Interrupts {
    pub enabled: u8,
    pub held: u8,
    pub level: u8,
}

// The stack address, 0 to 4,095, and the stack carry.
#[repr(C)]
#[derive(Clone, Copy)]
pub struct Stack {
    pub address: ProgramAddress,
    pub carry: u8,
}

// The halted flag; the fault, 0 to 3.
#[repr(C)]
#[derive(Clone, Copy)]
pub struct Status {
    pub halted: u8,
    pub fault: u8,
}

// PA, a nibble; the sound channel, 0 to 15 or 16 for off; the sound mode, 0 once, 1 loop.
#[repr(C)]
#[derive(Clone, Copy)]
pub struct Outputs {
    pub pa: u8,
    pub channel: u8,
    pub mode: u8,
}

// The levels of PM, PS and PP, nibbles, and of INT, 0 or 1.
#[repr(C)]
#[derive(Clone, Copy)]
pub struct Pins {
    pub pm: u8,
    pub ps: u8,
    pub pp: u8,
    pub int: u8,
}

// Timer rate n, 0 to 13 but not 6, or 255 for the external clock; commons 3 or 4; a wake nibble for each of PM, PS, PP.
#[repr(C)]
#[derive(Clone, Copy)]
pub struct Options {
    pub rate: u8,
    pub commons: u8,
    pub pm: u8,
    pub ps: u8,
    pub pp: u8,
}

#[repr(C)]
#[derive(Clone, Copy)]
pub struct Cpu {
    pub registers: Registers,
    pub control: Control,
    pub timer: Timer,
    pub interrupts: Interrupts,
    pub stack: Stack,
    pub status: Status,
    pub outputs: Outputs,
    pub pins: Pins,
    pub options: Options,
    // Goes on past its largest value to zero.
    pub cycles: u32,
}
