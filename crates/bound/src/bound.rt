// The bound of a pair.
ghost use Rattle.std.specs.Prelude.{◌≡◌, true, Some};
ghost use Rattle.rom.specs.Fetching.{sized};
ghost use Rattle.checker.specs.Marks.{pair};
ghost use Rattle.bound.specs.Bounds.{BoundAnswers};
ghost use Rattle.bound.specs.Lists.{bound_of};
ghost use Rattle.bound.specs.Text.{bound_text};
ghost use Rattle.bound.specs.Walk.{Passing};

use crate::longest::{ENDLESS, longest};
use checker::check::{MARKS, Verdict, check, is_marked};
use isa::{ADDRESSES, PLACES};
use refusals::Refusal;
use rom::reader::check_mask;
use std::fmt;

#[derive(Clone, Copy, Debug, PartialEq, Eq)]
pub enum Bound {
    // The pair is unmarked, or in level 0.
    NotReached,
    // A loop or a HALT can be reached.
    NoBound,
    // The largest cycle total of a chain to a return.
    Cycles(u16),
}

// As `checkmask` prints it.
impl fmt::Display for Bound {
    ghost output = { λ b. Some (bound_text b) };

    fn fmt<W: fmt::Write>(&self, f: &mut fmt::Formatter<W>) -> fmt::Result {
        match self {
            Bound::NotReached => write!(f, "not reached"),
            Bound::NoBound => write!(f, "no bound"),
            Bound::Cycles(cycles) => write!(f, "{cycles}"),
        }
    }
}

// The answer for a number of the walk.
pub(crate) fn told(found: u16) -> Bound
    ensures { result ≡ bound_of found }
{
    if found == ENDLESS {
        return Bound::NoBound;
    }
    Bound::Cycles(found)
}

// The marks of a mask that passes; one that fails is refused.
pub(crate) fn mark_passed(mask: &[u8], marks: &mut [u8; MARKS]) -> Result<(), Refusal>
    requires { sized mask.now ≡ true }
    ensures { Passing mask.now marks.new result }
{
    match check(mask, marks)? {
        Verdict::Passed => Ok(()),
        Verdict::Failed { .. } => Err(Refusal::Fails),
    }
}

// The most cycles from a pair above main to a return. `level` stays the C interface's number, which is judged here.
pub fn bound_of(mask: &[u8], address: u16, level: u8) -> Result<Bound, Refusal>
    ensures { BoundAnswers mask.now (pair address level) result }
{
    check_mask(mask)?;
    if ADDRESSES <= address || 2 < level {
        return Err(Refusal::Range);
    }
    let mut marks = [0u8; MARKS];
    mark_passed(mask, &mut marks)?;
    if level == 0 || !is_marked(&marks, address, level) {
        return Ok(Bound::NotReached);
    }
    let mut found = [0u16; PLACES];
    Ok(told(longest(mask, &mut found, address, ADDRESSES)))
}
