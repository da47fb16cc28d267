// Files for the programs. No contract can say what a file holds; the work is in functions on bytes.
#![tactic(auto)]

ghost use Rattle.std.specs.Prelude.{◌≡◌, IfOk, length};
ghost use Rattle.files.specs.Counts.{IsPrefixLen};

use std::fs::File;
use std::io;
use std::io::{Read, Write};
use std::rt::Files;

// Reads until the buffer is full, the input ends or a read fails. The answer is how many bytes stand at the start of the buffer: what came
// before a failure counts, which std's `read_exact` does not tell.
pub fn read_full<R: Read>(input: &mut R, buf: &mut [u8]) -> usize
    ensures { IsPrefixLen result buf.new }
{
    let mut done = 0;
    while done < buf.len() {
        match input.read(&mut buf[done..]) {
            Ok(0) | Err(_) => break,
            Ok(n) => done += n,
        }
    }
    done
}

// How many bytes of a file, at most as many as the buffer has. A missing file counts as empty, and so does a path
// that is no text, since std opens none. A path stays bytes: callers may hand any, and no more may be asked of them.
pub fn read_file<F: Files>(rt: &F, path: &[u8], buf: &mut [u8]) -> usize
    ensures { IsPrefixLen result buf.new }
{
    let Ok(path) = str::from_utf8(path) else {
        return 0;
    };
    match File::open(rt, path) {
        Ok(mut file) => read_full(&mut file, buf),
        Err(_) => 0,
    }
}

// Writes a file anew, all of the bytes. The answer is their count.
pub fn write_file<F: Files>(rt: &F, path: &[u8], bytes: &[u8]) -> io::Result<usize>
    ensures { IfOk result (λ n. n ≡ length bytes.now) }
{
    let Ok(path) = str::from_utf8(path) else {
        return Err(io::Error::from(io::ErrorKind::InvalidInput));
    };
    let mut file = File::create(rt, path)?;
    file.write_all(bytes)?;
    Ok(bytes.len())
}
