// A script's answer as a number.
ghost use Rattle.std.specs.Prelude.{◌≡◌, ◌≤◌};
ghost use Rattle.script.specs.Check.{checked, told};
ghost use Rattle.script.specs.Reports.{applied};
ghost use Rattle.ht1130_tools.specs.Numbers.{Ran, script_number};

use crate::masks::refused_at;
use script::Refused;
use script::apply::apply_script;
use script::check::check_script;

fn packed(answer: Result<(), Refused>) -> u64
    requires { (told answer).offset ≤ 65535 }
    ensures { result ≡ script_number (told answer) }
{
    match answer {
        Ok(()) => 0,
        Err(refused) => refused_at(refused.refusal, refused.offset as u32),
    }
}

#[tactic(auto, using(crate::proofs::Small::small_checked))]
pub fn ht1130_check_script(mask: &[u8], script: &[u8], room: usize) -> u64
    ensures { result ≡ script_number (checked mask.now script.now room) }
{
    packed(check_script(mask, script, room))
}

pub fn ht1130_run_script(mask: &[u8], script: &[u8], out: &mut [u8]) -> u64
    ensures { Ran (applied mask.now script.now out.old) out.new result }
{
    packed(apply_script(mask, script, out))
}
