// A report as a line of text: 96 upper-case hexadecimal digits and a newline.
ghost use Rattle.std.specs.Prelude.{◌≡◌, ◌<◌, get_or, length};
ghost use Rattle.script.specs.Hex.{digit, hex_line};

use std::array;

// `mnemonic` has one for its lines; no crate of texts stands below a script.
fn digit(d: u8) -> u8
    requires { d < 16 }
    ensures { result ≡ digit d }
{
    if d < 10 {
        return b'0' + d;
    }
    b'A' + (d - 10)
}

// Character `i` of the line.
#[tactic(auto, using(crate::proofs::Hexes::newline, crate::proofs::Hexes::character))]
fn line_byte(report: &[u8], i: usize) -> u8
    requires { (length report.now ≡ 48) × (i < 97) }
    ensures { result ≡ get_or (hex_line report.now) i 0 }
{
    if i == 96 {
        return b'\n';
    }
    let x = report[i / 2];
    if i % 2 == 0 {
        return digit(x / 16);
    }
    digit(x % 16)
}

pub fn hex_line(report: [u8; 48]) -> [u8; 97]
    ensures { result ≡ hex_line report }
{
    array::from_fn(|i| line_byte(&report, i))
}
