// What each instruction does, in the order of the summary.
ghost use Rattle.std.specs.Prelude.{◌≡◌};
ghost use Rattle.datapath.specs.Memory.{strays, tallied};
ghost use Rattle.cpu.specs.Effect.{effect};
ghost use Rattle.cpu.specs.Gap.{accesses};
ghost use Rattle.cpu.specs.State.{state};

use crate::Cpu;
use crate::flow::{branch_to, page, table};
use datapath::alu::{
    add, and, bit_set, decimal_adjust, decrement, increment, not_zero, or, rotate_left,
    rotate_left_through, rotate_right, rotate_right_through, subtract, xor,
};
use datapath::memory::MEMORY;
use isa::{Condition, Instruction, Pointer, Port};

impl Cpu {
    // The processor after an instruction, the PC having moved on. A fault is set in the status. `gap` counts the accesses that stray.
    #[tactic(auto, using(crate::proofs::Branched::branched_pc), unfolding(crate::specs::Effect::effect, crate::specs::Gap::pointers, datapath::specs::Memory::strays, datapath::specs::Memory::tallied))]
    pub(crate) fn effect(
        mut self,
        instruction: Instruction,
        mask: &[u8],
        memory: &mut [u8; MEMORY],
        gap: &mut u16,
    ) -> Cpu
        ensures memory_after { state result memory.new ≡ effect mask.now instruction (state self memory.old) }
        ensures gap_after { gap.new ≡ tallied gap.old (strays (accesses instruction self)) }
    {
        match instruction {
            Instruction::AddAM => { // ADD A,[R1R0]
                let v = self.operand(Pointer::R1R0, memory, gap);
                let x = add(self.registers.acc, v, 0);
                self.take(x)
            }
            Instruction::AdcAM => { // ADC A,[R1R0]
                let v = self.operand(Pointer::R1R0, memory, gap);
                let x = add(self.registers.acc, v, self.control.cf);
                self.take(x)
            }
            Instruction::SubAM => { // SUB A,[R1R0]
                let v = self.operand(Pointer::R1R0, memory, gap);
                let x = subtract(self.registers.acc, v, 1);
                self.take(x)
            }
            Instruction::SbcAM => { // SBC A,[R1R0]
                let v = self.operand(Pointer::R1R0, memory, gap);
                let x = subtract(self.registers.acc, v, self.control.cf);
                self.take(x)
            }
            Instruction::AddAX(d) => { // ADD A,XH
                let x = add(self.registers.acc, d, 0);
                self.take(x)
            }
            Instruction::SubAX(d) => { // SUB A,XH
                let x = subtract(self.registers.acc, d, 1);
                self.take(x)
            }
            Instruction::Daa => { // DAA
                let x = decimal_adjust(self.registers.acc, self.control.cf);
                self.take(x)
            }
            Instruction::AndAM => { // AND A,[R1R0]
                let v = self.operand(Pointer::R1R0, memory, gap);
                let x = and(self.registers.acc, v);
                self.set_acc(x)
            }
            Instruction::OrAM => { // OR A,[R1R0]
                let v = self.operand(Pointer::R1R0, memory, gap);
                let x = or(self.registers.acc, v);
                self.set_acc(x)
            }
            Instruction::XorAM => { // XOR A,[R1R0]
                let v = self.operand(Pointer::R1R0, memory, gap);
                let x = xor(self.registers.acc, v);
                self.set_acc(x)
            }
            Instruction::AndMA => { // AND [R1R0],A
                let v = self.operand(Pointer::R1R0, memory, gap);
                let x = and(v, self.registers.acc);
                self.put(Pointer::R1R0, memory, x, gap);
                self
            }
            Instruction::OrMA => { // OR [R1R0],A
                let v = self.operand(Pointer::R1R0, memory, gap);
                let x = or(v, self.registers.acc);
                self.put(Pointer::R1R0, memory, x, gap);
                self
            }
            Instruction::XorMA => { // XOR [R1R0],A
                let v = self.operand(Pointer::R1R0, memory, gap);
                let x = xor(v, self.registers.acc);
                self.put(Pointer::R1R0, memory, x, gap);
                self
            }
            Instruction::AndAX(d) => { // AND A,XH
                let x = and(self.registers.acc, d);
                self.set_acc(x)
            }
            Instruction::OrAX(d) => { // OR A,XH
                let x = or(self.registers.acc, d);
                self.set_acc(x)
            }
            Instruction::XorAX(d) => { // XOR A,XH
                let x = xor(self.registers.acc, d);
                self.set_acc(x)
            }
            Instruction::IncA => { // INC A
                let x = increment(self.registers.acc);
                self.set_acc(x)
            }
            Instruction::IncR(n) => { // INC Rn
                let v = self.register(n);
                let x = increment(v);
                self.set_register(n, x)
            }
            Instruction::IncM(p) => { // INC [R1R0], INC [R3R2]
                let v = self.operand(p, memory, gap);
                let x = increment(v);
                self.put(p, memory, x, gap);
                self
            }
            Instruction::DecA => { // DEC A
                let x = decrement(self.registers.acc);
                self.set_acc(x)
            }
            Instruction::DecR(n) => { // DEC Rn
                let v = self.register(n);
                let x = decrement(v);
                self.set_register(n, x)
            }
            Instruction::DecM(p) => { // DEC [R1R0], DEC [R3R2]
                let v = self.operand(p, memory, gap);
                let x = decrement(v);
                self.put(p, memory, x, gap);
                self
            }
            Instruction::MovAR(n) => { // MOV A,Rn
                let v = self.register(n);
                self.set_acc(v)
            }
            Instruction::MovRA(n) => self.set_register(n, self.registers.acc), // MOV Rn,A
            Instruction::MovAM(p) => { // MOV A,[R1R0], MOV A,[R3R2]
                let v = self.operand(p, memory, gap);
                self.set_acc(v)
            }
            Instruction::MovMA(p) => { // MOV [R1R0],A, MOV [R3R2],A
                self.put(p, memory, self.registers.acc, gap);
                self
            }
            Instruction::MovAX(d) => self.set_acc(d), // MOV A,XH
            Instruction::MovPairXX(p, low, high) => self.set_pair(p, low, high), // MOV R1R0,XXH, MOV R3R2,XXH
            Instruction::MovR4X(d) => { // MOV R4,XH
                self.registers.r4 = d;
                self
            }
            Instruction::RlA => { // RL A
                let x = rotate_left(self.registers.acc);
                self.take(x)
            }
            Instruction::RlcA => { // RLC A
                let x = rotate_left_through(self.registers.acc, self.control.cf);
                self.take(x)
            }
            Instruction::RrA => { // RR A
                let x = rotate_right(self.registers.acc);
                self.take(x)
            }
            Instruction::RrcA => { // RRC A
                let x = rotate_right_through(self.registers.acc, self.control.cf);
                self.take(x)
            }
            // A port's arms stand here: as a method by its name every step takes three times the instructions (docs/PERFORMANCE.md).
            Instruction::InA(p) => match p { // IN A,PM, IN A,PS, IN A,PP
                Port::Pm => {
                    let v = self.pins.pm;
                    self.registers.acc = v;
                    self
                }
                Port::Ps => {
                    let v = self.pins.ps;
                    self.registers.acc = v;
                    self
                }
                Port::Pp => {
                    let v = self.pins.pp;
                    self.registers.acc = v;
                    self
                }
            },
            Instruction::OutPaA => { // OUT PA,A
                let x = self.registers.acc;
                self.outputs.pa = x;
                self
            }
            Instruction::Jmp(t) => { // JMP addr
                let x = t.0;
                self.control.pc.0 = x;
                self
            }
            // So do a condition's: the branch as a method costs every step as much (docs/PERFORMANCE.md).
            Instruction::Branch(t, k) => match k { // JC, JNC, JTMR, JAn, JZ A, JNZ A, JNZ Rn
                Condition::Ja(n) => { // JAn addr
                    let pc = branch_to(bit_set(self.registers.acc, n), self.control.pc.0, t.0);
                    self.control.pc.0 = pc;
                    self
                }
                Condition::JnzR0 => { // JNZ R0,addr
                    let pc = branch_to(not_zero(self.registers.r0), self.control.pc.0, t.0);
                    self.control.pc.0 = pc;
                    self
                }
                Condition::JnzR1 => { // JNZ R1,addr
                    let pc = branch_to(not_zero(self.registers.r1), self.control.pc.0, t.0);
                    self.control.pc.0 = pc;
                    self
                }
                Condition::JnzR4 => { // JNZ R4,addr
                    let pc = branch_to(not_zero(self.registers.r4), self.control.pc.0, t.0);
                    self.control.pc.0 = pc;
                    self
                }
                Condition::Jz => { // JZ A,addr
                    let pc = branch_to(self.registers.acc == 0, self.control.pc.0, t.0);
                    self.control.pc.0 = pc;
                    self
                }
                Condition::JnzA => { // JNZ A,addr
                    let pc = branch_to(not_zero(self.registers.acc), self.control.pc.0, t.0);
                    self.control.pc.0 = pc;
                    self
                }
                Condition::Jc => { // JC addr
                    let pc = branch_to(self.control.cf == 1, self.control.pc.0, t.0);
                    self.control.pc.0 = pc;
                    self
                }
                Condition::Jnc => { // JNC addr
                    let pc = branch_to(self.control.cf == 0, self.control.pc.0, t.0);
                    self.control.pc.0 = pc;
                    self
                }
                Condition::Jtmr => { // JTMR addr
                    let pc = branch_to(self.control.tf == 1, self.control.pc.0, t.0);
                    self.control.tf = 0;
                    self.control.pc.0 = pc;
                    self
                }
            },
            Instruction::Call(t) => self.call(t), // CALL addr
            Instruction::Ret => self.ret(), // RET
            Instruction::Reti => self.reti(), // RETI
            Instruction::Clc => { // CLC
                self.control.cf = 0;
                self
            }
            Instruction::Stc => { // STC
                self.control.cf = 1;
                self
            }
            Instruction::Ei => { // EI
                self.interrupts.enabled = 1;
                self
            }
            Instruction::Di => { // DI
                self.interrupts.enabled = 0;
                self
            }
            Instruction::Nop => self, // NOP
            Instruction::TimerXX(x) => { // TIMER XXH
                self.timer.count = x;
                self
            }
            Instruction::TimerOn => { // TIMER ON
                self.timer.running = 1;
                self
            }
            Instruction::TimerOff => { // TIMER OFF
                self.timer.running = 0;
                self
            }
            Instruction::MovATmrl => self.set_acc(self.timer.count % 16), // MOV A,TMRL
            Instruction::MovATmrh => self.set_acc(self.timer.count / 16), // MOV A,TMRH
            Instruction::MovTmrlA => { // MOV TMRL,A
                let x = self.timer.count / 16 * 16 + self.registers.acc % 16;
                self.timer.count = x;
                self
            }
            Instruction::MovTmrhA => { // MOV TMRH,A
                let x = self.registers.acc % 16 * 16 + self.timer.count % 16;
                self.timer.count = x;
                self
            }
            Instruction::ReadR4A(p) => { // READ R4A, READF R4A
                let low = self.operand(Pointer::R1R0, memory, gap);
                let page = page(p, self.control.pc.0);
                let x = table(mask, page, self.registers.acc, low);
                let high = x / 16;
                let rest = x % 16;
                self.registers.r4 = high;
                self.registers.acc = rest;
                self
            }
            Instruction::ReadMr0A(p) => { // READ MR0A, READF MR0A
                let page = page(p, self.control.pc.0);
                let x = table(mask, page, self.registers.acc, self.registers.r4);
                self.put(Pointer::R1R0, memory, x / 16, gap);
                self.set_acc(x % 16)
            }
            Instruction::SoundN(n) => { // SOUND n
                self.outputs.channel = n;
                self
            }
            Instruction::SoundA => { // SOUND A
                let x = self.registers.acc;
                self.outputs.channel = x;
                self
            }
            Instruction::SoundOne => { // SOUND ONE
                self.outputs.mode = 0;
                self
            }
            Instruction::SoundLoop => { // SOUND LOOP
                self.outputs.mode = 1;
                self
            }
            Instruction::SoundOff => { // SOUND OFF
                self.outputs.channel = 16;
                self
            }
            Instruction::Halt => { // HALT
                self.status.halted = 1;
                self
            }
        }
    }
}
