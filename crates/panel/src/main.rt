// `panel`: reads mask.bin and script.bin and prints each report as a line of hexadecimal digits, or one line `refused N at P`.
// `panel` and `readings` stay two: each is a program, and what they share is `play`; a shared `main` would be a public function of which no
// contract can say anything.
#![tactic(auto)]

use files::read_file;
use player::{Reports, play};
use rom::reader::MASK;
use std::io;
use std::io::{BufWriter, Write};

// One byte more than each limit is read, so that a longer file is refused. A missing file counts as empty.
fn main(rt: HostRuntime) -> io::Result<()> {
    let mut mask = [0u8; MASK + 1];
    let mut script = [0u8; 65536];
    let m = read_file(&rt, b"mask.bin", &mut mask);
    let s = read_file(&rt, b"script.bin", &mut script);
    let mut out = BufWriter::new(rt.alloc(), io::writer(&rt))?;
    let _ = play(&mut out, &mask[..m], &script[..s], &Reports)?;
    out.flush()
}
