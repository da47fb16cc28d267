// The arithmetic and logic unit.
ghost use Rattle.std.specs.Prelude.{◌≡◌, ◌-◌, ◌%◌, ◌+◌};
ghost use Rattle.std.specs.Int.Bits.{bit_and, bit_or, bit_xor};
ghost use Rattle.datapath.specs.Alu.{adjusted, bit_set, decremented, incremented, not_zero, rotated_left, rotated_left_through, rotated_right, rotated_right_through, subtracted, summed};

// A nibble and the carry that goes with it: both count, whatever the other is.
#[derive(Clone, Copy)]
pub struct Sum {
    pub value: u8,
    pub carry: u8,
}

// ADD and ADC: the sum modulo 16, and a carry when it is over 15. Its two answers, and the two of `subtract`, stand apart: with the carry by
// `u8::from` and `saturating_sub` a step of a Run takes up to six instructions more (docs/PERFORMANCE.md).
pub fn add(a: u8, b: u8, c: u8) -> Sum
    ensures { result ≡ summed a b c }
{
    let total = a as u16 + b as u16 + c as u16;
    if 15 < total {
        return Sum {
            value: (total % 16) as u8,
            carry: 1,
        };
    }
    Sum {
        value: (total % 16) as u8,
        carry: 0,
    }
}

// SUB and SBC: 15 - b is added, so a carry of 1 is no borrow.
pub fn subtract(a: u8, b: u8, c: u8) -> Sum
    ensures { result ≡ subtracted a b c }
{
    if b < 16 {
        return add(a, 15 - b, c);
    }
    add(a, 0, c)
}

// DAA.
pub fn decimal_adjust(a: u8, carry: u8) -> Sum
    ensures { result ≡ adjusted a carry }
{
    if 9 < a || carry == 1 {
        return Sum {
            value: ((a as u16 + 6) % 16) as u8,
            carry: 1,
        };
    }
    Sum { value: a, carry }
}

// RL: bit 3 goes round to bit 0 and into the carry.
pub fn rotate_left(a: u8) -> Sum
    ensures { result ≡ rotated_left a }
{
    rotate_left_through(a, a % 16 / 8)
}

// RLC: the carry goes into bit 0, and bit 3 into the carry.
pub fn rotate_left_through(a: u8, carry: u8) -> Sum
    ensures { result ≡ rotated_left_through a carry }
{
    let n = a % 16;
    Sum {
        value: n * 2 % 16 + carry % 2,
        carry: n / 8,
    }
}

// RR: bit 0 goes round to bit 3 and into the carry.
pub fn rotate_right(a: u8) -> Sum
    ensures { result ≡ rotated_right a }
{
    rotate_right_through(a, a % 2)
}

// RRC: the carry goes into bit 3, and bit 0 into the carry.
pub fn rotate_right_through(a: u8, carry: u8) -> Sum
    ensures { result ≡ rotated_right_through a carry }
{
    let n = a % 16;
    Sum {
        value: n / 2 + carry % 2 * 8,
        carry: n % 2,
    }
}

// INC. It and DEC are two by their names: each is one line.
pub fn increment(a: u8) -> u8
    ensures { result ≡ incremented a }
{
    ((a as u16 + 1) % 16) as u8
}

// DEC: one less modulo 16.
pub fn decrement(a: u8) -> u8
    ensures { result ≡ decremented a }
{
    ((a as u16 + 15) % 16) as u8
}

// AND, OR and XOR, one operator each: one function for the three would say which by one word more.
pub fn and(a: u8, b: u8) -> u8
    ensures { result ≡ bit_and a b }
{
    a & b
}

pub fn or(a: u8, b: u8) -> u8
    ensures { result ≡ bit_or a b }
{
    a | b
}

pub fn xor(a: u8, b: u8) -> u8
    ensures { result ≡ bit_xor a b }
{
    a ^ b
}

// JAn: whether bit n is 1. n is below 4.
pub fn bit_set(a: u8, n: u8) -> bool
    ensures { result ≡ bit_set a n }
{
    let k = n % 4;
    (a >> k) % 2 == 1
}

// JNZ.
pub fn not_zero(a: u8) -> bool
    ensures { result ≡ not_zero a }
{
    a != 0
}
