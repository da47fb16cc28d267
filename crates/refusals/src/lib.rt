// Why an input is refused: document 01, "Refused inputs", and what document 02 adds. "Checked in this order; the lowest number wins".
#![tactic(auto)]

ghost use Rattle.refusals.specs.Numbers.{Numbered};
ghost use Rattle.refusals.specs.Text.{refusal_text};
ghost use Rattle.std.specs.Prelude.{Some};

use std::fmt;

// In the order of their numbers, 1 to 16.
#[derive(Clone, Copy, Debug, PartialEq, Eq, PartialOrd, Ord, Hash)]
pub enum Refusal {
    // The mask has not 4,096 bytes.
    Mask,
    // A lent image, buffer or list is of another length.
    Buffer,
    // A nibble, a level of INT or a field of an instruction is outside its range.
    Value,
    // An option is outside its list.
    Choice,
    // A machine's field, a pair or an address is out of range.
    Range,
    // A script is too long, or a record is cut off or its payload length wrong.
    Format,
    // A kind names no event.
    Kind,
    // A script does not start with a power-on.
    Start,
    // The report buffer is too short for the records.
    Room,
    // There is no way to a forbidden place: the mask passes.
    Passes,
    // The list is too short for the way.
    List,
    // A line cannot be read, or a text is too long.
    Line,
    // An operand's value or a line's place is out of range.
    Operand,
    // A label is missing or defined again.
    Label,
    // The mask fails.
    Fails,
    // A picture shows no reading, or a reading does not fit the glass.
    Glass,
}

// Document 01's number, which hosts are told.
impl From<Refusal> for u8 {
    ghost from_gives = { Numbered };

    fn from(refusal: Refusal) -> u8 {
        match refusal {
            Refusal::Mask => 1,
            Refusal::Buffer => 2,
            Refusal::Value => 3,
            Refusal::Choice => 4,
            Refusal::Range => 5,
            Refusal::Format => 6,
            Refusal::Kind => 7,
            Refusal::Start => 8,
            Refusal::Room => 9,
            Refusal::Passes => 10,
            Refusal::List => 11,
            Refusal::Line => 12,
            Refusal::Operand => 13,
            Refusal::Label => 14,
            Refusal::Fails => 15,
            Refusal::Glass => 16,
        }
    }
}

// As the programs print it.
impl fmt::Display for Refusal {
    ghost output = { λ r. Some (refusal_text r) };

    fn fmt<W: fmt::Write>(&self, f: &mut fmt::Formatter<W>) -> fmt::Result {
        write!(f, "refused {}", u8::from(*self))
    }
}
