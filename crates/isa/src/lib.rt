// The instruction set of the HT1130: its addresses and instructions, and the decoder.
#![tactic(auto)]

pub mod decoder;

// How many addresses the program ROM has.
pub const ADDRESSES: u16 = 4096;

// The same, for a list with an element for each.
pub const PLACES: usize = ADDRESSES as usize;

// An address of the program ROM, 0 to 4,095 (document 01: "A program address counts to 4,095").
#[repr(C)]
#[derive(Clone, Copy, Debug, PartialEq, Eq)]
pub struct ProgramAddress(pub u16);

// An address of the data memory, 0 to 255 (document 01: "and a data address to 255").
#[derive(Clone, Copy, Debug, PartialEq, Eq)]
pub struct DataAddress(pub u8);

// A register pair that points into the data memory.
#[derive(Clone, Copy, Debug, PartialEq, Eq)]
pub enum Pointer {
    R1R0,
    R3R2,
}

// An input port.
#[derive(Clone, Copy, Debug, PartialEq, Eq)]
pub enum Port {
    Pm,
    Ps,
    Pp,
}

// The page that a table read takes its byte from: the program counter's own, or page 15.
#[derive(Clone, Copy, Debug, PartialEq, Eq)]
pub enum Page {
    Current,
    F,
}

// What a conditional branch tests.
#[derive(Clone, Copy, Debug, PartialEq, Eq)]
pub enum Condition {
    // JAn: bit n of ACC is 1. n is 0 to 3.
    Ja(u8),
    // JNZ R0
    JnzR0,
    // JNZ R1
    JnzR1,
    // JNZ R4
    JnzR4,
    // JZ A
    Jz,
    // JNZ A
    JnzA,
    // JC
    Jc,
    // JNC
    Jnc,
    // JTMR
    Jtmr,
}

// One line of document 001's instruction summary, in its order. M is the data memory at a register pair, X a nibble, XX a byte.
#[derive(Clone, Copy, Debug, PartialEq, Eq)]
pub enum Instruction {
    // Arithmetic. ADD, ADC, SUB and SBC A,[R1R0]; ADD and SUB A,XH; DAA
    AddAM,
    AdcAM,
    SubAM,
    SbcAM,
    AddAX(u8),
    SubAX(u8),
    Daa,
    // Logic operation. AND, OR and XOR A,[R1R0]; then [R1R0],A; then A,XH
    AndAM,
    OrAM,
    XorAM,
    AndMA,
    OrMA,
    XorMA,
    AndAX(u8),
    OrAX(u8),
    XorAX(u8),
    // Increment and decrement. A register is 0 to 4
    IncA,
    IncR(u8),
    IncM(Pointer),
    DecA,
    DecR(u8),
    DecM(Pointer),
    // Data move. MOV A,Rn; Rn,A; A,[pair]; [pair],A; A,XH; pair,XXH (its low nibble, then its high one); R4,XH
    MovAR(u8),
    MovRA(u8),
    MovAM(Pointer),
    MovMA(Pointer),
    MovAX(u8),
    MovPairXX(Pointer, u8, u8),
    MovR4X(u8),
    // Rotate
    RlA,
    RlcA,
    RrA,
    RrcA,
    // Input and output. IN A,Pi; OUT PA,A
    InA(Port),
    OutPaA,
    // Branch. JMP to any address; a conditional branch to an address whose bit 11 is left out, 0 to 2,047. The address stands first: the
    // condition's two bytes then lie on no other field, and the processor need not wait to copy an answer of the decoder
    Jmp(ProgramAddress),
    Branch(ProgramAddress, Condition),
    // Subroutine
    Call(ProgramAddress),
    Ret,
    Reti,
    // Flag
    Clc,
    Stc,
    Ei,
    Di,
    Nop,
    // Timer. TIMER XXH, ON and OFF; MOV A,TMRL; A,TMRH; TMRL,A; TMRH,A
    TimerXX(u8),
    TimerOn,
    TimerOff,
    MovATmrl,
    MovATmrh,
    MovTmrlA,
    MovTmrhA,
    // Table read. READ (the current page) and READF (page 15), to R4 and ACC or to M(R1,R0) and ACC
    ReadR4A(Page),
    ReadMr0A(Page),
    // Sound control. SOUND n, A, ONE, LOOP, OFF
    SoundN(u8),
    SoundA,
    SoundOne,
    SoundLoop,
    SoundOff,
    // Miscellaneous
    Halt,
}
