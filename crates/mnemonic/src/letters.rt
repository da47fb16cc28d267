// A line put together: its front, the fixed letters up to its operand, and the operand.
ghost use Rattle.std.specs.Prelude.{ℕ, List, ◌≡◌, [], ◌∷◌, ◌++◌, ◌+◌, ◌≤◌, ◌<◌, ◌%◌, length};
ghost use Rattle.mnemonic.specs.Held.{Holds};
ghost use Rattle.mnemonic.specs.Spelling.{codes, digit, hex_digits, led};

use crate::Text;

impl Text {
    // The text alone.
    pub fn as_slice(&self) -> &[u8]
        ensures { (s : List ℕ) → Holds self.now s → result.now ≡ s }
    {
        &self.bytes[..self.length]
    }
}

// A front and what stands after it. That a line fits in 16 stands in four contracts, since each puts another count of letters behind its front.
pub(crate) fn joined(front: &[u8], back: &[u8]) -> Text
    requires { length front.now + length back.now ≤ 16 }
    ensures { Holds result (front.now ++ back.now) }
{
    let mut bytes = [0u8; 16];
    let length = front.len() + back.len();
    bytes[..front.len()].copy_from_slice(front);
    bytes[front.len()..length].copy_from_slice(back);
    Text { bytes, length }
}

// The last digit of a number, upper-case hexadecimal.
pub fn digit(x: u16) -> u8
    ensures { result ≡ digit (x % 16) }
{
    let d = (x % 16) as u8;
    if d < 10 {
        return b'0' + d;
    }
    b'A' + (d - 10)
}

// A number by its digits: a 0 in front where the first is a letter, an H behind.
pub(crate) fn number(front: &[u8], digits: &[u8]) -> Text
    requires not_empty { 0 < length digits.now }
    requires room { length front.now + length digits.now ≤ 14 }
    ensures { Holds result (front.now ++ (led digits.now ++ codes "H")) }
{
    let ended = joined(digits, b"H");
    if digits[0] < b'A' {
        return joined(front, ended.as_slice());
    }
    joined(joined(front, b"0").as_slice(), ended.as_slice())
}

pub(crate) fn nibble(x: u8) -> [u8; 1]
    ensures { result ≡ hex_digits 1 x }
{
    [digit(x as u16)]
}

pub(crate) fn byte(x: u16) -> [u8; 2]
    ensures { result ≡ hex_digits 2 x }
{
    [digit(x / 16), digit(x)]
}

pub(crate) fn address(x: u16) -> [u8; 3]
    ensures { result ≡ hex_digits 3 x }
{
    [digit(x / 16 / 16), digit(x / 16), digit(x)]
}

// A line with no operand.
pub(crate) fn plain(line: &[u8]) -> Text
    requires { length line.now ≤ 16 }
    ensures { Holds result (line.now) }
{
    joined(line, b"")
}

// A line that ends in a register's number.
pub(crate) fn register(front: &[u8], n: u8) -> Text
    requires { length front.now < 16 }
    ensures { Holds result (front.now ++ (digit (n % 16) ∷ [])) }
{
    joined(front, &[digit(n as u16)])
}
