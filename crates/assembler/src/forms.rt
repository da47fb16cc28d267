// The forms of a line, by the fixed words and signs before its operand: 0 is ORG, then come the lines of document 001's summary in its order. A
// blank line has none.
ghost use Rattle.std.specs.Prelude.{◌≡◌, ◌<◌, ◌^◌, ◌%◌, eqb, get_or, length, unwrap_or, IfSome};
ghost use Rattle.std.specs.List.{position_from};
ghost use Rattle.operand.specs.Read.{place_of};
ghost use Rattle.assembler.specs.Shapes.{bytes_in, digits_in, firsts, form_keys, form_number, listed, low_bytes, shape_number, shapes, size_in};

use rom::encoder::Written;

// No enum beside the other forms: one search over one list finds any of them, and their definition (`form_at`) counts ORG as 0.
pub const ORG: usize = 0;

// How a form's bytes hold its operand.
#[derive(Clone, Copy, Debug, PartialEq, Eq)]
pub enum Shape {
    // There are no bytes.
    Empty,
    // One byte without an operand.
    Plain,
    // HALT's, whose second byte is fixed.
    Halt,
    // A nibble in the low bits of the one byte.
    Within,
    // A nibble in the second byte.
    Nibble,
    // A byte, its low nibble in the first byte and its high one in the second.
    Pair,
    // A byte in the second byte.
    Byte,
    // Eleven bits of an address, the high ones in the first byte's low bits.
    Branch,
    // Twelve.
    Address,
}

// What tells a form, the kinds of its words and signs in a row; its first byte where its operand is 0; and how its bytes hold that operand. The kinds
// are the bytes of a number and no slice: a line's make one as they are read, without a table for them, and one comparison tells a form.
#[derive(Clone, Copy)]
struct Form {
    key: u64,
    first: u8,
    shape: Shape,
}

// A blank line's, which has no bytes.
const BLANK: Form = Form {
    key: 0,
    first: 0,
    shape: Shape::Empty,
};

// A form's number is its row, which stands on one line.
#[rattlefmt::skip]
const FORMS: [Form; 97] = [
    Form { key: 0xbc, first: 0x00, shape: Shape::Empty }, // ORG
    Form { key: 0x80812c5b825d, first: 0x09, shape: Shape::Plain }, // ADD A,[R1R0]
    Form { key: 0x83812c5b825d, first: 0x08, shape: Shape::Plain }, // ADC A,[R1R0]
    Form { key: 0x84812c5b825d, first: 0x0b, shape: Shape::Plain }, // SUB A,[R1R0]
    Form { key: 0x85812c5b825d, first: 0x0a, shape: Shape::Plain }, // SBC A,[R1R0]
    Form { key: 0x80812c, first: 0x40, shape: Shape::Nibble }, // ADD A,XH
    Form { key: 0x84812c, first: 0x41, shape: Shape::Nibble }, // SUB A,XH
    Form { key: 0x86, first: 0x36, shape: Shape::Plain }, // DAA
    Form { key: 0x87812c5b825d, first: 0x1a, shape: Shape::Plain }, // AND A,[R1R0]
    Form { key: 0x88812c5b825d, first: 0x1c, shape: Shape::Plain }, // OR A,[R1R0]
    Form { key: 0x89812c5b825d, first: 0x1b, shape: Shape::Plain }, // XOR A,[R1R0]
    Form { key: 0x875b825d2c81, first: 0x1d, shape: Shape::Plain }, // AND [R1R0],A
    Form { key: 0x885b825d2c81, first: 0x1f, shape: Shape::Plain }, // OR [R1R0],A
    Form { key: 0x895b825d2c81, first: 0x1e, shape: Shape::Plain }, // XOR [R1R0],A
    Form { key: 0x87812c, first: 0x42, shape: Shape::Nibble }, // AND A,XH
    Form { key: 0x88812c, first: 0x44, shape: Shape::Nibble }, // OR A,XH
    Form { key: 0x89812c, first: 0x43, shape: Shape::Nibble }, // XOR A,XH
    Form { key: 0x8a81, first: 0x31, shape: Shape::Plain }, // INC A
    Form { key: 0x8a8b, first: 0x10, shape: Shape::Plain }, // INC R0
    Form { key: 0x8a8c, first: 0x12, shape: Shape::Plain }, // INC R1
    Form { key: 0x8a8d, first: 0x14, shape: Shape::Plain }, // INC R2
    Form { key: 0x8a8e, first: 0x16, shape: Shape::Plain }, // INC R3
    Form { key: 0x8a8f, first: 0x18, shape: Shape::Plain }, // INC R4
    Form { key: 0x8a5b825d, first: 0x0c, shape: Shape::Plain }, // INC [R1R0]
    Form { key: 0x8a5b905d, first: 0x0e, shape: Shape::Plain }, // INC [R3R2]
    Form { key: 0x9181, first: 0x3f, shape: Shape::Plain }, // DEC A
    Form { key: 0x918b, first: 0x11, shape: Shape::Plain }, // DEC R0
    Form { key: 0x918c, first: 0x13, shape: Shape::Plain }, // DEC R1
    Form { key: 0x918d, first: 0x15, shape: Shape::Plain }, // DEC R2
    Form { key: 0x918e, first: 0x17, shape: Shape::Plain }, // DEC R3
    Form { key: 0x918f, first: 0x19, shape: Shape::Plain }, // DEC R4
    Form { key: 0x915b825d, first: 0x0d, shape: Shape::Plain }, // DEC [R1R0]
    Form { key: 0x915b905d, first: 0x0f, shape: Shape::Plain }, // DEC [R3R2]
    Form { key: 0x92812c8b, first: 0x21, shape: Shape::Plain }, // MOV A,R0
    Form { key: 0x92812c8c, first: 0x23, shape: Shape::Plain }, // MOV A,R1
    Form { key: 0x92812c8d, first: 0x25, shape: Shape::Plain }, // MOV A,R2
    Form { key: 0x92812c8e, first: 0x27, shape: Shape::Plain }, // MOV A,R3
    Form { key: 0x92812c8f, first: 0x29, shape: Shape::Plain }, // MOV A,R4
    Form { key: 0x928b2c81, first: 0x20, shape: Shape::Plain }, // MOV R0,A
    Form { key: 0x928c2c81, first: 0x22, shape: Shape::Plain }, // MOV R1,A
    Form { key: 0x928d2c81, first: 0x24, shape: Shape::Plain }, // MOV R2,A
    Form { key: 0x928e2c81, first: 0x26, shape: Shape::Plain }, // MOV R3,A
    Form { key: 0x928f2c81, first: 0x28, shape: Shape::Plain }, // MOV R4,A
    Form { key: 0x92812c5b825d, first: 0x04, shape: Shape::Plain }, // MOV A,[R1R0]
    Form { key: 0x92812c5b905d, first: 0x06, shape: Shape::Plain }, // MOV A,[R3R2]
    Form { key: 0x925b825d2c81, first: 0x05, shape: Shape::Plain }, // MOV [R1R0],A
    Form { key: 0x925b905d2c81, first: 0x07, shape: Shape::Plain }, // MOV [R3R2],A
    Form { key: 0x92812c, first: 0x70, shape: Shape::Within }, // MOV A,XH
    Form { key: 0x92822c, first: 0x50, shape: Shape::Pair }, // MOV R1R0,XXH
    Form { key: 0x92902c, first: 0x60, shape: Shape::Pair }, // MOV R3R2,XXH
    Form { key: 0x928f2c, first: 0x46, shape: Shape::Nibble }, // MOV R4,XH
    Form { key: 0x9381, first: 0x01, shape: Shape::Plain }, // RL A
    Form { key: 0x9481, first: 0x03, shape: Shape::Plain }, // RLC A
    Form { key: 0x9581, first: 0x00, shape: Shape::Plain }, // RR A
    Form { key: 0x9681, first: 0x02, shape: Shape::Plain }, // RRC A
    Form { key: 0x97812c98, first: 0x32, shape: Shape::Plain }, // IN A,PM
    Form { key: 0x97812c99, first: 0x33, shape: Shape::Plain }, // IN A,PS
    Form { key: 0x97812c9a, first: 0x34, shape: Shape::Plain }, // IN A,PP
    Form { key: 0x9b9c2c81, first: 0x30, shape: Shape::Plain }, // OUT PA,A
    Form { key: 0x9d, first: 0xe0, shape: Shape::Address }, // JMP addr
    Form { key: 0x9e, first: 0xc0, shape: Shape::Branch }, // JC addr
    Form { key: 0x9f, first: 0xc8, shape: Shape::Branch }, // JNC addr
    Form { key: 0xa0, first: 0xd0, shape: Shape::Branch }, // JTMR addr
    Form { key: 0xa1, first: 0x80, shape: Shape::Branch }, // JA0 addr
    Form { key: 0xa2, first: 0x88, shape: Shape::Branch }, // JA1 addr
    Form { key: 0xa3, first: 0x90, shape: Shape::Branch }, // JA2 addr
    Form { key: 0xa4, first: 0x98, shape: Shape::Branch }, // JA3 addr
    Form { key: 0xa5812c, first: 0xb0, shape: Shape::Branch }, // JZ A,addr
    Form { key: 0xa6812c, first: 0xb8, shape: Shape::Branch }, // JNZ A,addr
    Form { key: 0xa68b2c, first: 0xa0, shape: Shape::Branch }, // JNZ R0,addr
    Form { key: 0xa68c2c, first: 0xa8, shape: Shape::Branch }, // JNZ R1,addr
    Form { key: 0xa68f2c, first: 0xd8, shape: Shape::Branch }, // JNZ R4,addr
    Form { key: 0xa7, first: 0xf0, shape: Shape::Address }, // CALL addr
    Form { key: 0xa8, first: 0x2e, shape: Shape::Plain }, // RET
    Form { key: 0xa9, first: 0x2f, shape: Shape::Plain }, // RETI
    Form { key: 0xaa, first: 0x2a, shape: Shape::Plain }, // CLC
    Form { key: 0xab, first: 0x2b, shape: Shape::Plain }, // STC
    Form { key: 0xac, first: 0x2c, shape: Shape::Plain }, // EI
    Form { key: 0xad, first: 0x2d, shape: Shape::Plain }, // DI
    Form { key: 0xae, first: 0x3e, shape: Shape::Plain }, // NOP
    Form { key: 0xaf, first: 0x47, shape: Shape::Byte }, // TIMER XXH
    Form { key: 0xafb0, first: 0x38, shape: Shape::Plain }, // TIMER ON
    Form { key: 0xafb1, first: 0x39, shape: Shape::Plain }, // TIMER OFF
    Form { key: 0x92812cb2, first: 0x3a, shape: Shape::Plain }, // MOV A,TMRL
    Form { key: 0x92812cb3, first: 0x3b, shape: Shape::Plain }, // MOV A,TMRH
    Form { key: 0x92b22c81, first: 0x3c, shape: Shape::Plain }, // MOV TMRL,A
    Form { key: 0x92b32c81, first: 0x3d, shape: Shape::Plain }, // MOV TMRH,A
    Form { key: 0xb4b5, first: 0x4c, shape: Shape::Plain }, // READ R4A
    Form { key: 0xb4b6, first: 0x4e, shape: Shape::Plain }, // READ MR0A
    Form { key: 0xb7b5, first: 0x4d, shape: Shape::Plain }, // READF R4A
    Form { key: 0xb7b6, first: 0x4f, shape: Shape::Plain }, // READF MR0A
    Form { key: 0xb8, first: 0x45, shape: Shape::Nibble }, // SOUND n
    Form { key: 0xb881, first: 0x4b, shape: Shape::Plain }, // SOUND A
    Form { key: 0xb8b9, first: 0x48, shape: Shape::Plain }, // SOUND ONE
    Form { key: 0xb8ba, first: 0x49, shape: Shape::Plain }, // SOUND LOOP
    Form { key: 0xb8b1, first: 0x4a, shape: Shape::Plain }, // SOUND OFF
    Form { key: 0xbb, first: 0x37, shape: Shape::Halt }, // HALT
];

// The row of a key.
fn place(list: &[Form], key: u64) -> Option<usize>
    ensures { result ≡ position_from (λ (form : Form). eqb form.key key) 0 list.now }
{
    list.iter().position(|form| form.key == key)
}

// The number of the form whose words and signs have these kinds in a row.
pub(crate) fn form_of(key: u64) -> Option<usize>
    ensures number { unwrap_or result 97 ≡ place_of form_keys key }
    ensures below { IfSome result (λ form. form < 97) }
{
    place(&FORMS, key)
}

// The row of a line's form.
fn row(form: Option<usize>) -> Form
    ensures { result ≡ get_or FORMS (form_number form) BLANK }
{
    match form {
        Some(form) => FORMS.get(form).copied().unwrap_or(BLANK),
        None => BLANK,
    }
}

// The first byte of a form where its operand is 0.
pub(crate) fn first_of(form: Option<usize>) -> u8
    ensures { result ≡ get_or firsts (form_number form) 0 }
{
    row(form).first
}

pub(crate) fn shape_of(form: Option<usize>) -> Shape
    ensures { shape_number result ≡ get_or shapes (form_number form) 0 }
{
    row(form).shape
}

// How many bytes.
pub(crate) fn size_of(shape: Shape) -> usize
    ensures { result ≡ size_in (shape_number shape) }
{
    match shape {
        Shape::Empty => 0,
        Shape::Plain | Shape::Within => 1,
        _ => 2,
    }
}

// How many hexadecimal digits the operand can have.
pub(crate) fn digits_of(shape: Shape) -> u8
    ensures { result ≡ digits_in (shape_number shape) }
{
    match shape {
        Shape::Empty | Shape::Plain | Shape::Halt => 0,
        Shape::Within | Shape::Nibble => 1,
        Shape::Pair | Shape::Byte => 2,
        Shape::Branch | Shape::Address => 3,
    }
}

// How many values that makes.
pub(crate) fn values_of(digits: u8) -> u64
    requires { digits < 4 }
    ensures { result ≡ 16 ^ digits }
{
    16u64.pow(u32::from(digits))
}

// The low byte of a number.
fn byte(x: u32) -> u8
    ensures { result ≡ x % 256 }
{
    (x % 256) as u8
}

// The bytes of a form and its operand's value, by the form's shape and first byte.
pub(crate) fn bytes_of(shape: Shape, first: u8, value: u16) -> Option<Written>
    ensures { (listed result ≡ low_bytes (bytes_in (shape_number shape) first value)) × (length (listed result) ≡ size_in (shape_number shape)) }
{
    let a = first as u32;
    let v = value as u32;
    match shape {
        Shape::Empty => None,
        Shape::Plain => Some(Written::One(first)),
        Shape::Halt => Some(Written::Two(first, 0x3e)),
        Shape::Within => Some(Written::One(byte(a + v))),
        Shape::Nibble | Shape::Byte => Some(Written::Two(first, byte(v))),
        Shape::Pair => Some(Written::Two(byte(a + v % 16), byte(v / 16))),
        Shape::Branch => Some(Written::Two(byte(a + v % 2048 / 256), byte(v % 2048 % 256))),
        Shape::Address => Some(Written::Two(byte(a + v / 256), byte(v % 256))),
    }
}
