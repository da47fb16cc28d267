// Numbers of a file, little-endian, and a processor field by field. Past the end of the file all is 0.
use cpu::{Control, Cpu, Interrupts, Options, Outputs, Pins, Registers, Stack, Status, Timer};
use files::read_full;
use isa::ProgramAddress;
use std::io::Read;

// The next bytes of a file. `glass_main` has its own: each function of `files` has a promise, and this one has none.
pub fn bytes<const N: usize, R: Read>(file: &mut R) -> [u8; N] {
    let mut bytes = [0u8; N];
    read_full(file, &mut bytes);
    bytes
}

pub fn byte<R: Read>(file: &mut R) -> u8 {
    u8::from_le_bytes(bytes(file))
}

pub fn word<R: Read>(file: &mut R) -> u16 {
    u16::from_le_bytes(bytes(file))
}

fn long<R: Read>(file: &mut R) -> u32 {
    u32::from_le_bytes(bytes(file))
}

fn address<R: Read>(file: &mut R) -> ProgramAddress {
    ProgramAddress(word(file))
}

fn registers<R: Read>(file: &mut R) -> Registers {
    Registers {
        acc: byte(file),
        r0: byte(file),
        r1: byte(file),
        r2: byte(file),
        r3: byte(file),
        r4: byte(file),
    }
}

fn control<R: Read>(file: &mut R) -> Control {
    Control {
        pc: address(file),
        cf: byte(file),
        tf: byte(file),
    }
}

fn timer<R: Read>(file: &mut R) -> Timer {
    Timer {
        count: byte(file),
        running: byte(file),
    }
}

fn interrupts<R: Read>(file: &mut R) -> Interrupts {
    Interrupts {
        enabled: byte(file),
        held: byte(file),
        level: byte(file),
    }
}

fn stack<R: Read>(file: &mut R) -> Stack {
    Stack {
        address: address(file),
        carry: byte(file),
    }
}

fn status<R: Read>(file: &mut R) -> Status {
    Status {
        halted: byte(file),
        fault: byte(file),
    }
}

fn outputs<R: Read>(file: &mut R) -> Outputs {
    Outputs {
        pa: byte(file),
        channel: byte(file),
        mode: byte(file),
    }
}

fn pins<R: Read>(file: &mut R) -> Pins {
    Pins {
        pm: byte(file),
        ps: byte(file),
        pp: byte(file),
        int: byte(file),
    }
}

pub fn options<R: Read>(file: &mut R) -> Options {
    Options {
        rate: byte(file),
        commons: byte(file),
        pm: byte(file),
        ps: byte(file),
        pp: byte(file),
    }
}

pub fn cpu<R: Read>(file: &mut R) -> Cpu {
    Cpu {
        registers: registers(file),
        control: control(file),
        timer: timer(file),
        interrupts: interrupts(file),
        stack: stack(file),
        status: status(file),
        outputs: outputs(file),
        pins: pins(file),
        options: options(file),
        cycles: long(file),
    }
}
