// A reading as a person writes it: `dark`, 12.34, -0.50. A text is a number whose bytes are its characters, the first lowest.
ghost use Rattle.std.specs.Prelude.{◌≡◌, ◌+◌, ◌*◌, ◌^◌, ◌<◌, true, cond, [], ◌∷◌, ◌++◌, take, Some, IsUtf8};
ghost use Rattle.glass.specs.Drawing.{digits_of, fits};
ghost use Rattle.glass.specs.Text.{packed, spelt, text_of};
ghost use Rattle.glass.specs.Walk.{place_in};

use crate::Reading;
use crate::figure::Figure;
use std::{fmt, str};

// A digit before a text, and its point behind it.
fn digit(numeral: u8, pointed: bool, text: u64) -> u64
    requires small { numeral < 10 }
    requires room { text < 65536 ^ 3 }
    ensures { result ≡ 48 + numeral + 256 * cond pointed (46 + 256 * text) text }
{
    let rest = if pointed {
        text * 256 + u64::from(b'.')
    } else {
        text
    };
    rest * 256 + u64::from(b'0' + numeral)
}

// The characters of a figure's digits, the point among them.
fn digits(figure: Figure) -> u64
    ensures text { result ≡ packed (spelt (digits_of figure.digits figure.size figure.places)) }
    ensures bound { result < 65536 ^ figure.digits }
{
    let mut text = 0;
    for after in 0..figure.digits {
        text = digit(figure.numeral(after), figure.pointed(after), text);
    }
    text
}

fn written(figure: Figure) -> u64
    requires { fits figure.minus figure.digits ≡ true }
    ensures { result ≡ packed (cond figure.minus (45 ∷ []) [] ++ spelt (digits_of figure.digits figure.size figure.places)) }
{
    let text = digits(figure);
    if figure.minus {
        text * 256 + u64::from(b'-')
    } else {
        text
    }
}

// The text of a reading; 0, no characters, where it does not fit the glass.
pub fn text(reading: Reading) -> u64
    ensures { result ≡ packed (text_of reading) }
{
    match reading {
        Reading::Dark => u64::from(u32::from_le_bytes(*b"dark")),
        Reading::Number(value, places) => match Figure::of(value, places) {
            Some(figure) => written(figure),
            None => 0,
        },
    }
}

// What stands before the first 0. A text's characters are ASCII, so that its bytes make a `str`.
fn characters(bytes: &[u8; 8]) -> &str
    ensures { IsUtf8 (take (place_in bytes.now 0) bytes.now) → result.now ≡ take (place_in bytes.now 0) bytes.now }
{
    let end = bytes.iter().position(|byte| *byte == 0).unwrap_or(8);
    str::from_utf8(&bytes[..end]).unwrap_or("")
}

impl fmt::Display for Reading {
    ghost output = { λ r. Some (text_of r) };

    fn fmt<W: fmt::Write>(&self, f: &mut fmt::Formatter<W>) -> fmt::Result {
        f.write_str(characters(&text(*self).to_le_bytes()))
    }
}
