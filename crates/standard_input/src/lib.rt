// What is open for reading, as standard input or a file, read into a passed buffer. Which bytes come is the system's; how
// many at most, and that reading ends, is proved.
#![tactic(auto)]

ghost use Rattle.std.specs.Prelude.{◌≡◌, ◌≤◌, IfOk, length};
ghost use Rattle.std.specs.Str.{IsUtf8};

use std::fs::File;
use std::io;
use std::io::Read;
use std::rt::Files;
use std::str::from_utf8;

// Room for a chunk of an input.
pub fn large_buffer() -> [u8; 65536]
    ensures { 65536 ≡ length result }
{
    [0; 65536]
}

// The file of this name. What the system has of that name cannot be told; a name that is not UTF-8 opens none.
pub fn open<R: Files>(rt: &R, name: &[u8]) -> io::Result<R::File>
    ensures { IfOk result (λ _. IsUtf8 name.now) }
{
    match from_utf8(name) {
        Ok(path) => File::open(rt, path),
        Err(_) => Err(io::Error::new(io::ErrorKind::InvalidFilename, "its name is not UTF-8")),
    }
}

// The bytes of `input` from where it was left, from the start of `buf` on: up to its end, or until the buffer is full.
// How many bytes there are, or why they cannot be read.
pub fn fill<R: Read>(input: &mut R, buf: &mut [u8]) -> io::Result<usize>
    ensures counted { IfOk result (λ n. n ≤ length buf.new) }
    ensures same_len { length buf.new ≡ length buf.old }
{
    let mut done = 0;
    while done < buf.len() {
        let n = input.read(&mut buf[done..])?;
        if n == 0 {
            break;
        }
        done += n;
    }
    Ok(done)
}
