// Where what stands at an address hands the program on above main: by runs of first bytes, as the checker's flow. It is not that flow, which hides
// HALT, and of which a second caller in a library makes it a call in the checker's walk.
ghost use Rattle.std.specs.Prelude.{◌≡◌};
ghost use Rattle.isa.specs.Reading.{decoded};
ghost use Rattle.rom.specs.Fetching.{moved_by};
ghost use Rattle.bound.specs.Walk.{HandedOn};

use rom::reader::moved_by;

#[derive(Clone, Copy)]
pub enum Ways {
    // HALT.
    Stop,
    // Nowhere: a return. CALL and what cannot be read are forbidden above main.
    Out,
    One(u16),
    Two(u16, u16),
}

// The addresses that two bytes at an address hand the program on to. The tests go as those of the entry do, so that the compiler can make one chain
// of both.
#[tactic(auto, using(checker::proofs::Flows::by_runs, crate::proofs::Runs::halt, crate::proofs::Runs::halts))]
pub(crate) fn ways_by(address: u16, first: u8, second: u8, length: u8) -> Ways
    ensures { HandedOn (decoded first second) (moved_by length address) result }
{
    if 0x7f < first {
        if first < 0xe0 {
            let next = moved_by(address, length);
            let target = (first % 8) as u16 * 256 + second as u16;
            return Ways::Two(next, next / 2048 * 2048 + target);
        }
        if first < 0xf0 {
            return Ways::One((first % 16) as u16 * 256 + second as u16); // JMP
        }
        return Ways::Out; // CALL
    }
    if first < 0x35 {
        if first < 0x2e {
            return Ways::One(moved_by(address, length)); // EI too
        }
        if first < 0x30 {
            return Ways::Out; // RET, RETI
        }
        return Ways::One(moved_by(address, length));
    }
    if first < 0x38 {
        if first == 0x35 {
            return Ways::Out;
        }
        if first == 0x36 {
            return Ways::One(moved_by(address, length)); // DAA
        }
        if second == 0x3e {
            return Ways::Stop;
        }
        return Ways::Out;
    }
    if first < 0x40 {
        return Ways::One(moved_by(address, length));
    }
    if first < 0x48 {
        if first == 0x47 {
            return Ways::One(moved_by(address, length)); // TIMER's byte follows
        }
        if second < 16 {
            return Ways::One(moved_by(address, length)); // a nibble follows
        }
        return Ways::Out;
    }
    if first < 0x50 {
        return Ways::One(moved_by(address, length)); // SOUND, READ
    }
    if first < 0x70 {
        if second < 16 {
            return Ways::One(moved_by(address, length)); // MOV R1R0 and MOV R3R2
        }
        return Ways::Out;
    }
    Ways::One(moved_by(address, length)) // MOV A,XH
}
