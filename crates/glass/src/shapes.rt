// The shapes of a digit. A code is the first nibble (a, b, c, d) and 16 times e, f, g: the point is not in it.
ghost use Rattle.std.specs.Prelude.{◌≡◌};
ghost use Rattle.glass.specs.Shapes.{shape};
ghost use Rattle.glass.specs.Walk.{code_of, shown};

// What a digit shows.
#[derive(Clone, Copy, Debug, PartialEq, Eq)]
pub(crate) enum Mark {
    Numeral(u8),
    Blank,
    Minus,
}

// The code of 0 to 9; blank for any other number.
pub(crate) fn shape(numeral: u8) -> u8
    ensures { result ≡ code_of (shape numeral) }
{
    match numeral {
        0 => 0x3f,
        1 => 0x06,
        2 => 0x5b,
        3 => 0x4f,
        4 => 0x66,
        5 => 0x6d,
        6 => 0x7d,
        7 => 0x07,
        8 => 0x7f,
        9 => 0x6f,
        _ => 0,
    }
}

// What a code shows, if it is a shape's.
#[tactic(auto, unfolding(crate::specs::Walk::shown_as))]
pub(crate) fn shown(code: u8) -> Option<Mark>
    ensures { result ≡ shown code }
{
    let mark = match code {
        0x3f => Mark::Numeral(0),
        0x06 => Mark::Numeral(1),
        0x5b => Mark::Numeral(2),
        0x4f => Mark::Numeral(3),
        0x66 => Mark::Numeral(4),
        0x6d => Mark::Numeral(5),
        0x7d => Mark::Numeral(6),
        0x07 => Mark::Numeral(7),
        0x7f => Mark::Numeral(8),
        0x6f => Mark::Numeral(9),
        0x00 => Mark::Blank,
        0x40 => Mark::Minus,
        _ => return None,
    };
    Some(mark)
}
