// A script checked and run, for C.
ghost use Rattle.std.specs.Prelude.{◌≡◌};
ghost use Rattle.script.specs.Check.{checked};
ghost use Rattle.script.specs.Reports.{applied};
ghost use Rattle.ht1130_tools.specs.Numbers.{Ran, script_number};

use ht1130_tools::scripts;

#[unsafe(no_mangle)]
pub extern "C" fn ht1130_check_script(mask: &[u8], script: &[u8], room: usize) -> u64
    ensures { result ≡ script_number (checked mask.now script.now room) }
{
    scripts::ht1130_check_script(mask, script, room)
}

#[unsafe(no_mangle)]
pub extern "C" fn ht1130_run_script(mask: &[u8], script: &[u8], out: &mut [u8]) -> u64
    ensures { Ran (applied mask.now script.now out.old) out.new result }
{
    scripts::ht1130_run_script(mask, script, out)
}
