// Reading a picture, digit by digit from the left.
ghost use Rattle.std.specs.Prelude.{◌≡◌, true, ◌/◌, ◌<◌, ◌≤◌, eqb, length};
ghost use Rattle.glass.specs.Shapes.{cell};
ghost use Rattle.glass.specs.Reading.{SeenAnswers, all_nibbles};
ghost use Rattle.glass.specs.Walk.{code_of, numeral_taken, reading_of, shown, stepped};

use crate::shapes::{Mark, shown};
use crate::signed::signed;
use crate::{Reading, Unseen};

// What the digits so far are.
#[derive(Clone, Copy, Debug, PartialEq, Eq)]
enum Stage {
    Blanks,
    // Blanks and a minus.
    Signed,
    Digits,
    // Digits from the one with the point on.
    Fraction,
}

// What the digits so far show.
#[derive(Clone, Copy)]
struct Front {
    value: u16,
    stage: Stage,
    minus: bool,
    places: u8,
}

// A numeral more; none with a second point.
#[tactic(auto, unfolding(crate::specs::Walk::numeral_taken))]
fn take_numeral(front: Front, numeral: u8, point: bool) -> Option<Front>
    requires { (front.value < 1000) × (front.places ≤ 3) × (numeral < 10) }
    ensures { result ≡ numeral_taken front numeral point }
{
    let (stage, places) = match (front.stage, point) {
        (Stage::Fraction, true) => return None,
        (Stage::Fraction, false) => (Stage::Fraction, front.places + 1),
        (_, true) => (Stage::Fraction, 0),
        (_, false) => (Stage::Digits, 0),
    };
    Some(Front {
        value: front.value * 10 + u16::from(numeral),
        stage,
        minus: front.minus,
        places,
    })
}

// One digit more, or none that can stand there. A minus on the last digit has no digit after it.
#[tactic(auto, unfolding(crate::specs::Walk::stepped))]
fn step(front: Front, abcd: u8, efgp: u8, last: bool) -> Option<Front>
    requires { (front.value < 1000) × (front.places ≤ 3) × (abcd < 16) }
    ensures { result ≡ stepped front (shown (code_of (cell abcd efgp))) (eqb (efgp / 8) 1) last }
{
    let point = efgp / 8 == 1;
    match (shown(abcd + efgp % 8 * 16)?, front.stage) {
        (Mark::Numeral(numeral), _) => take_numeral(front, numeral, point),
        (Mark::Blank, Stage::Blanks) if !point => Some(front),
        (Mark::Minus, Stage::Blanks) if !point && !last => Some(Front {
            value: 0,
            stage: Stage::Signed,
            minus: true,
            places: 0,
        }),
        _ => None,
    }
}

// What all digits show.
fn told(front: Front) -> Reading
    ensures { result ≡ reading_of front }
{
    match front.stage {
        Stage::Blanks => Reading::Dark,
        _ => Reading::Number(signed(front.minus, front.value), front.places),
    }
}

fn walk(picture: &[u8]) -> Result<Reading, Unseen>
    requires { (length picture.now ≡ 8) × (all_nibbles picture.now ≡ true) }
    ensures { SeenAnswers picture.now result }
{
    let mut front = Front {
        value: 0,
        stage: Stage::Blanks,
        minus: false,
        places: 0,
    };
    for (k, digit) in picture.chunks_exact(2).enumerate() {
        let Some(next) = step(front, digit[0], digit[1], k == 3) else {
            return Err(Unseen::Unreadable(k as u8));
        };
        front = next;
    }
    Ok(told(front))
}

// One line, as machine's `all_nibbles` says it of its own: neither crate stands on the other.
fn in_range(picture: &[u8]) -> bool
    ensures { result ≡ all_nibbles picture.now }
{
    picture.iter().all(|nibble| *nibble < 16)
}

// What a picture shows, or why it shows nothing.
pub fn read(picture: &[u8]) -> Result<Reading, Unseen>
    ensures { SeenAnswers picture.now result }
{
    if picture.len() != 8 {
        return Err(Unseen::BadLength);
    }
    if !in_range(picture) {
        return Err(Unseen::BadNibble);
    }
    walk(picture)
}
