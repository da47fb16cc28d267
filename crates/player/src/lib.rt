// What `panel` and `readings` share: runs a mask and a script, and prints after each record the report or what an operator sees; or one line
// `refused N at P`. What is printed is decided by the proved functions of `script`, `glass` and `machine_glass`; here lines
// are written.
#![tactic(auto)]

ghost use Rattle.std.specs.Prelude.{◌≡◌, ℕ, List, [], ◌∷◌, ◌++◌, take, IfOk, OnOk};
ghost use Rattle.std.specs.Io.KnownBytes.{Appends};
ghost use Rattle.glass.specs.Walk.{place_in};
ghost use Rattle.machine.specs.declared.Machine.{Machine};
ghost use Rattle.script.specs.Check.{checked, told};
ghost use Rattle.player.specs.Shown.{SightLine, report_line};

mod steps;

use glass::Unseen;
use glass::text::text;
use machine::Machine;
use machine_glass::sight_of;
use script::Refused;
use script::check::check_script;
use script::hex::hex_line;
use std::io;
use std::io::Write;
use steps::Steps;

// Room for more records than 65,535 bytes can hold: a program keeps no reports and never meets refusal 9.
const ROOM: usize = 3145728;

// What is printed of a machine after each record. No checked script leaves one out of range.
pub trait Show {
    // The lines that may be printed of a machine.
    ghost shows: { Self → Machine → List ℕ → Type 0 };

    fn show<W: Write>(&self, out: &mut W, machine: Machine) -> io::Result<()>
        ensures { OnOk result ((line : List ℕ) × shows self.now machine line × Appends (W.contents out.old) (W.contents out.new) line) };
}

#[derive(Clone, Copy)]
pub struct Reports;

impl Show for Reports {
    ghost shows = { λ _ m line. line ≡ report_line m };

    fn show<W: Write>(&self, out: &mut W, machine: Machine) -> io::Result<()> {
        let mut report = [0u8; 48];
        let _ = machine.report(&mut report);
        out.write_all(&hex_line(report))
    }
}

// The characters of a text's bytes, which end before the first 0, and the line's end. As bytes: a `str` would be checked each time.
fn put_line<W: Write>(out: &mut W, text: &[u8; 8]) -> io::Result<()>
    ensures { OnOk result (Appends (W.contents out.old) (W.contents out.new) (take (place_in text.now 0) text.now ++ (10 ∷ []))) }
{
    let end = text.iter().position(|byte| *byte == 0).unwrap_or(8);
    out.write_all(&text[..end])?;
    out.write_all(b"\n")
}

// What an operator sees.
#[derive(Clone, Copy)]
pub struct Readings;

impl Show for Readings {
    ghost shows = { λ _ m line. SightLine m line };

    fn show<W: Write>(&self, out: &mut W, machine: Machine) -> io::Result<()> {
        match sight_of(machine) {
            Ok(Ok(reading)) => put_line(out, &text(reading).to_le_bytes()),
            Ok(Err(Unseen::Unreadable(digit))) => writeln!(out, "unreadable at digit {digit}"),
            // A machine in range has eight nibbles, none over 15.
            _ => writeln!(out),
        }
    }
}

// Record by record.
fn put_records<W: Write, S: Show>(
    out: &mut W,
    mask: &[u8],
    script: &[u8],
    shown: &S,
) -> io::Result<()> {
    for machine in Steps::new(mask, script) {
        shown.show(out, machine)?;
    }
    Ok(())
}

// Runs a script that is not refused, and shows the machine after each record. What is printed of a machine is the
// trait's to say; the answer is the check's. An error comes of a write alone, and leaves lines unwritten.
pub fn play<W: Write, S: Show>(
    out: &mut W,
    mask: &[u8],
    script: &[u8],
    shown: &S,
) -> io::Result<Result<(), Refused>>
    ensures { IfOk result (λ r. told r ≡ checked mask.now script.now 3145728) }
{
    let answer = check_script(mask, script, ROOM);
    match answer {
        Ok(()) => put_records(out, mask, script, shown)?,
        Err(refused) => writeln!(out, "{refused}")?,
    }
    Ok(answer)
}
