// Pictures read, readings drawn, and what is seen of a lent machine, for C.
ghost use Rattle.glass.specs.Drawing.{drawn_over};
ghost use Rattle.ht1130_tools.specs.Readings.{GlassDrawn, GlassRead, SightTold, given};

use ht1130_tools::pictures;
use machine::Machine;

#[unsafe(no_mangle)]
pub extern "C" fn ht1130_glass_read(picture: &[u8]) -> u64
    ensures { GlassRead picture.now result }
{
    pictures::ht1130_glass_read(picture)
}

#[unsafe(no_mangle)]
pub extern "C" fn ht1130_glass_draw(dark: u8, value: i32, places: u8, picture: &mut [u8]) -> u64
    ensures { GlassDrawn (drawn_over (given dark value places) picture.old) picture.new result }
{
    pictures::ht1130_glass_draw(dark, value, places, picture)
}

#[unsafe(no_mangle)]
pub extern "C" fn ht1130_reading(machine: &Machine) -> u64
    ensures { SightTold machine.now result }
{
    pictures::ht1130_reading(machine)
}
