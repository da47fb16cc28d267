// Drawing a reading, at the right with the fewest digits.
ghost use Rattle.std.specs.Prelude.{◌≡◌, ◌≤◌, Ok, Err, cond};
ghost use Rattle.refusals.specs.Numbers.{refusal_of};
ghost use Rattle.refusals.specs.declared.Refusal.TheVariants.{Glass};
ghost use Rattle.glass.specs.Shapes.{nibbles};
ghost use Rattle.glass.specs.Drawing.{drawing, drawn, drawn_over, fitting};
ghost use Rattle.glass.specs.Walk.{byte_of, placed, row};

use crate::Reading;
use crate::figure::Figure;
use crate::shapes::shape;
use refusals::Refusal;

// The digit that has `after` places to its right, its point in bit 7.
fn place(figure: Figure, after: u8) -> u8
    requires { after ≤ 3 }
    ensures { result ≡ byte_of (placed figure after) }
{
    if after < figure.digits {
        let code = shape(figure.numeral(after));
        if figure.pointed(after) {
            code + 128
        } else {
            code
        }
    } else if after == figure.digits && figure.minus {
        0x40
    } else {
        0
    }
}

// All eight nibbles of a number.
fn row(figure: Figure) -> [u8; 8]
    ensures { result ≡ nibbles (row figure) }
{
    let first = place(figure, 3);
    let second = place(figure, 2);
    let third = place(figure, 1);
    let last = place(figure, 0);
    [
        first % 16,
        first / 16,
        second % 16,
        second / 16,
        third % 16,
        third / 16,
        last % 16,
        last / 16,
    ]
}

fn picture_of(reading: Reading) -> Result<[u8; 8], Refusal>
    ensures { result ≡ cond (fitting reading) (Ok (nibbles (drawn reading))) (Err Glass) }
{
    let Reading::Number(value, places) = reading else {
        return Ok([0; 8]);
    };
    let figure = Figure::of(value, places).ok_or(Refusal::Glass)?;
    Ok(row(figure))
}

// Draws a reading, or refuses the picture's length or a reading that does not fit: then nothing is written.
#[tactic(auto, unfolding(crate::specs::Drawing::drawn_over))]
pub fn draw(reading: Reading, picture: &mut [u8]) -> Result<(), Refusal>
    ensures { drawing (refusal_of result) 0 picture.new ≡ drawn_over reading picture.old }
{
    if picture.len() != 8 {
        return Err(Refusal::Buffer);
    }
    picture.copy_from_slice(&picture_of(reading)?);
    Ok(())
}
