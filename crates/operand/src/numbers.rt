// Numbers: decimal, or hexadecimal ending in H, at most 65,535.
ghost use Rattle.std.specs.Prelude.{◌≡◌, ◌≤◌, true};
ghost use Rattle.operand.specs.Text.{is_digit};
ghost use Rattle.operand.specs.Words.{at_most, first, in_base, number_of};
ghost use Rattle.operand.specs.Read.{digit_in, given};

// A digit's value in a base.
fn digit_value(c: u8, base: u16) -> Option<u16>
    requires { base ≤ 16 }
    ensures { result ≡ digit_in base c }
{
    let value = match c {
        b'0'..=b'9' => c - b'0',
        b'A'..=b'F' => c - b'A' + 10,
        _ => return None,
    };
    if (value as u16) < base {
        Some(value as u16)
    } else {
        None
    }
}

// The value of digits.
fn digits(word: &[u8], base: u16) -> Option<u16>
    requires { base ≤ 16 }
    ensures { result ≡ given (at_most 65535 (in_base base 0 word.now)) }
{
    let mut value: u16 = 0;
    for c in word {
        value = value
            .checked_mul(base)?
            .checked_add(digit_value(*c, base)?)?;
    }
    Some(value)
}

// The value of a word that starts with a digit.
#[tactic(auto, using(crate::proofs::Digits::ends_in, crate::proofs::Digits::hexadecimal, crate::proofs::Digits::decimal))]
pub(crate) fn number(word: &[u8]) -> Option<u16>
    requires { is_digit (first word.now) ≡ true }
    ensures { result ≡ given (number_of word.now) }
{
    match word.strip_suffix(b"H") {
        Some(digits_before) => digits(digits_before, 16),
        None => digits(word, 10),
    }
}
