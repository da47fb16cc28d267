// What the instruction at a pair says of it. A pair's code is three times its address, and its level added: 0 to 12,287.
ghost use Rattle.std.specs.Prelude.{◌≡◌};
ghost use Rattle.checker.specs.Walk.{Faults, codes_in, fault_at, next_codes};

use crate::flow::{Flow, flow_by};
use rom::reader::{code_at, moved_by};
use rom::timing::length;

// The vectors 4 and 8 in level 2, where EI lets an interrupt go.
const TIMER: u16 = 4 * 3 + 2;

const EDGE: u16 = 8 * 3 + 2;

// The codes of a pair's successors.
#[derive(Clone, Copy)]
pub enum Codes {
    // A return's.
    Nothing,
    One(u16),
    Two(u16, u16),
    Three(u16, u16, u16),
}

// The successors of a pair, or the fault of a forbidden one, a number for the reason at `Named`. Nothing stands between the tests of the length and
// those of the flow, which are the same.
pub(crate) fn next_codes(mask: &[u8], code: u16) -> Result<Codes, u8>
    ensures result_value { codes_in result ≡ next_codes mask.now code }
    ensures faults { Faults result (fault_at mask.now code) }
{
    let address = code / 3;
    let level = code % 3;
    let bytes = code_at(mask, address);
    let size = length(bytes.first);
    let flow = flow_by(bytes.first, bytes.second);
    match flow {
        Flow::Unread => Err(1),
        Flow::On => Ok(Codes::One(moved_by(address, size) * 3 + level)),
        Flow::Enable => Ok(Codes::Three(moved_by(address, size) * 3 + level, TIMER, EDGE)),
        Flow::Jump(t) => Ok(Codes::One(t.0 * 3 + level)),
        Flow::To(t) => {
            let moved = moved_by(address, size);
            Ok(Codes::Two(
                moved * 3 + level,
                (moved / 2048 * 2048 + t.0 % 2048) * 3 + level,
            ))
        }
        Flow::Sub(t) => {
            if level == 0 {
                Ok(Codes::Two(t.0 * 3 + 1, moved_by(address, size) * 3))
            } else {
                Err(2)
            }
        }
        Flow::Back => {
            if level == 0 {
                Err(3)
            } else {
                Ok(Codes::Nothing)
            }
        }
    }
}
