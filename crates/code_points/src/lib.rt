// Code points: judged, measured, and their bytes laid down.
#![tactic(auto)]

ghost use Rattle.std.specs.Prelude.{◌≡◌, true, ◌+◌, ◌≤◌, length};
ghost use Rattle.buffers.specs.Over.{Over};
ghost use Rattle.utf8.specs.Scalar.{bytes_of};
ghost use Rattle.utf8.specs.Scalar.{len_utf8};
ghost use Rattle.code_point_blocks.specs.Codes.{all_scalar};
ghost use Rattle.code_point_blocks.specs.Laying.{CodesBlockRoom, TextLaid};
ghost use Rattle.code_points.specs.Laying.{JudgedAs, TextRoom};

use buffers::copy;
use code_point_blocks::{lay_ascii, lay_text_block, or_all};
use utf8::encode_utf8;
use utf8::lead::len_utf8;

// Whether numbers are scalar values, and how many bytes those that are have. It is no Option, since `JudgedAs` tells the
// size where a number is none too.
#[derive(Clone, Copy)]
pub struct Judged {
    pub scalar: bool,
    pub size: usize,
}

// Both of no more numbers than a 32-bit sum has room for: the loop has no way out inside, so that it is vectorised.
// An inner function: its caller cuts the code points into blocks of at most 65,536.
pub fn judge_block(codes: &[u32]) -> Judged
    requires { length codes.now ≤ 0x10000 }
    ensures { JudgedAs codes.now result }
{
    let mut scalar = true;
    let mut size: u32 = 0;
    for code in codes {
        let more = len_utf8(*code) as u32;
        scalar = scalar & (more != 0);
        size += more;
    }
    Judged {
        scalar,
        size: size as usize,
    }
}

pub fn judge(codes: &[u32]) -> Judged
    ensures { JudgedAs codes.now result }
{
    let mut scalar = true;
    let mut size: usize = 0;
    for block in codes.chunks(4096) {
        let judged = judge_block(block);
        scalar = scalar & judged.scalar;
        size += judged.size;
    }
    Judged { scalar, size }
}

// A character's bytes, laid from `at` on, and what is after them in four where that stays below `until`; how many
// they are.
// An inner function: its caller has measured the room for the character, and `until` lies within the buffer.
pub fn put_character(character: u32, out: &mut [u8], at: usize, until: usize) -> usize
    requires { (at + len_utf8 character ≤ length out.old) × (until ≤ length out.old) }
    ensures { (result ≡ len_utf8 character)
        × Over (bytes_of character) out.old at until out.new }
{
    let encoded = encode_utf8(character);
    let bytes = encoded.bytes;
    let len = encoded.len;
    if at + 4 <= until {
        copy(&bytes, out, at);
        return len;
    }
    copy(&bytes[..len], out, at);
    len
}

// The bytes of code points one by one, laid from `from` on; how far they reach.
fn lay_singly(codes: &[u32], out: &mut [u8], from: usize, until: usize) -> usize
    requires { TextRoom codes.now out.old from until }
    ensures { TextLaid codes.now out.old from until result out.new }
{
    let mut at = from;
    for code in codes {
        at += put_character(*code, out, at, until);
    }
    at
}

// 64 scalar values, by how many bytes they have at most.
fn lay_block(codes: &[u32], out: &mut [u8], at: usize, until: usize) -> usize
    requires { CodesBlockRoom codes.now out.old at until }
    ensures { TextLaid codes.now out.old at until result out.new }
{
    let most = or_all(codes);
    if most < 0x80 {
        lay_ascii(codes, out, at);
        return at + 64;
    }
    if most < 0x10000 {
        return lay_text_block(codes, out, at, until);
    }
    lay_singly(codes, out, at, until)
}

// The bytes of scalar values, laid from `from` on; how far they reach.
// An inner function: its caller has found all numbers to be scalar values, and has measured the room.
pub fn lay_text(codes: &[u32], out: &mut [u8], from: usize, until: usize) -> usize
    requires { TextRoom codes.now out.old from until × (all_scalar codes.now ≡ true) }
    ensures { TextLaid codes.now out.old from until result out.new }
{
    let mut at = from;
    let mut i = 0;
    // No `for`: the room may end before the code points, and what is left is laid singly either way.
    while (64 <= codes.len() - i) & (at + 256 <= until) {
        at = lay_block(&codes[i..i + 64], out, at, until);
        i += 64;
    }
    lay_singly(&codes[i..], out, at, until)
}
