// pieces < INPUT (RULES 14.4 to 14.6): the pieces that a literal and a behaviour cut a note into, to standard output.
// What is printed comes from `piece_lines`; here the input is read to its end, and that is written.
#![tactic(auto)]

ghost use Rattle.std.specs.Prelude.{◌≡◌, IfOk, length};
ghost use Rattle.piece_lines.specs.Scanning.{head_size, Keeps};
ghost use Rattle.pieces_main.specs.Reading.{Behind, Kept};

use piece_lines::input::{Seen, scan};
use piece_lines::{KEPT, answer, out_buffer};
use standard_input::{fill, large_buffer};
use std::io;
use std::io::Read;

// Room for what is kept of the input.
fn head_buffer() -> [u8; KEPT]
    ensures { head_size ≡ length result }
{
    [0; KEPT]
}

// What is seen at the end of the input, which is read chunk by chunk. No input has more chunks than the loop takes.
fn read_to_end<R: Read>(input: &mut R, seen: Seen) -> io::Result<Seen>
    ensures { IfOk result (λ last. Behind seen last) }
{
    let mut chunk = large_buffer();
    let mut so_far = seen;
    for _ in 0..u64::MAX {
        let n = fill(input, &mut chunk)?;
        so_far = scan(so_far, &chunk[..n]);
        if n < chunk.len() {
            return Ok(so_far);
        }
    }
    Err(io::Error::from(io::ErrorKind::FileTooLarge))
}

// What is kept of the input: how many of its first bytes are in front of `head`, and what is seen at its end.
fn keep<R: Read>(input: &mut R, head: &mut [u8]) -> io::Result<(usize, Seen)>
    requires { head_size ≡ length head.old }
    ensures { IfOk result (λ kept. Kept kept.0 kept.1 head.new) }
{
    let n = fill(input, head)?;
    let seen = scan(Seen::Literal(0), &head[..n]);
    if n < head.len() {
        return Ok((n, seen));
    }
    let last = read_to_end(input, seen)?;
    Ok((n, last))
}

fn say(rt: &impl Eprint, words: &str) {
    let _ = rt.eprint(words);
}

// What failed, and why.
fn fail(rt: &impl Eprint, what: &str, error: io::Error) {
    let _ = eprintln!(rt; "{what}: {error}");
}

// What is printed of the input of which this is kept. Where all of it could be written, a line on standard error says
// whether that was a refusal, `refused N`, or pieces: the script `pieces` reads its status there.
fn print(rt: &(impl Print + Eprint), head: &[u8], seen: Seen)
    requires { Keeps head.now seen }
{
    let mut out = out_buffer();
    let size = answer(head, seen, &mut out);
    if let Err(error) = rt.write_all(&out[..size]) {
        fail(rt, "pieces: standard output", error);
        return;
    }
    if out[0] == b'r' {
        say(rt, "refused\n");
        return;
    }
    say(rt, "answered\n");
}

fn main(rt: HostRuntime) {
    let mut input = rt.stdin();
    let mut head = head_buffer();
    match keep(&mut input, &mut head) {
        Ok((n, seen)) => print(&rt, &head[..n], seen),
        Err(error) => fail(&rt, "pieces: standard input", error),
    }
}
