// The targets of the CALLs that a mask may run.
ghost use Rattle.std.specs.Prelude.{◌<◌, ◌≡◌};
ghost use Rattle.isa.specs.Choice.{pick};
ghost use Rattle.isa.specs.Code.{addresses};
ghost use Rattle.checker.specs.Marks.{flow_at};
ghost use Rattle.checker.specs.Verdicts.{is_marked};
ghost use Rattle.checker.specs.declared.flow.Flow.TheVariants.{Unread};
ghost use Rattle.bound.specs.Lists.{CallTargets};
ghost use Rattle.bound.specs.Walk.{target_of};

use checker::check::{MARKS, is_marked};
use checker::flow::{Flow, flow_at};
use isa::{ADDRESSES, PLACES};

// The target of a CALL that is marked in main at an address.
fn called_at(mask: &[u8], marks: &[u8; MARKS], address: u16) -> Option<u16>
    requires { address < addresses }
    ensures { result ≡ target_of (pick (is_marked marks.now address 0) (flow_at mask.now address) Unread) }
{
    if !is_marked(marks, address, 0) {
        return None;
    }
    let code = address * 3; // its pair's in main
    match flow_at(mask, code) {
        Flow::Sub(t) => Some(t.0),
        _ => None,
    }
}

// A flag for each address, 1 where a CALL marked in main has it as its target: no `bool`, since `CallTargets` says 1.
pub fn call_targets(mask: &[u8], marks: &[u8; MARKS]) -> [u8; PLACES]
    ensures { CallTargets mask.now marks.now result }
{
    let mut targets = [0u8; PLACES];
    for address in 0..ADDRESSES {
        if let Some(target) = called_at(mask, marks, address) {
            targets[target as usize] = 1;
        }
    }
    targets
}
