// The bytes of 64 code points of at most three bytes each, without a branch for each.
// Each function here is an inner one: its callers have judged the code points and measured the room before.
#![tactic(auto)]

ghost use Rattle.std.specs.Prelude.{◌≡◌, ◌+◌, ◌≤◌, length, get_or};
ghost use Rattle.buffers.specs.Columns.{Filled};
ghost use Rattle.buffers.specs.Splice.{splice};
ghost use Rattle.code_point_blocks.specs.Laying.{CodesBlockRoom, EachBelow, TextLaid};
ghost use Rattle.code_point_blocks.specs.Laying.{or_all, packed_code, word_bytes};

use buffers::lanes::select;
use numbers::little_endian::put_u16_le;

// The bits of all code points together: each code point is at most that, and a power of two that all are below is above
// it.
pub fn or_all(codes: &[u32]) -> u32
    ensures { result ≡ or_all 0 codes.now }
{
    let mut bits: u32 = 0;
    for code in codes {
        bits |= *code;
    }
    bits
}

// Code points of one byte each, laid from `at` on.
pub fn lay_ascii(codes: &[u32], out: &mut [u8], at: usize)
    requires { EachBelow codes.now 0x80 × (at + length codes.now ≤ length out.old) }
    ensures { out.new ≡ splice out.old at codes.now }
{
    for (i, code) in codes.iter().enumerate() {
        out[at + i] = *code as u8;
    }
}

// The bytes of a code point of at most three, the first one lowest, and in the highest byte how many they are.
fn packed(c: u32) -> u32
    ensures { result ≡ packed_code c }
{
    let one = 0x1000000 + c % 128;
    let two = 0x20080C0 + c / 64 % 32 + c % 64 * 256;
    let three = 0x38080E0 + c / 4096 % 16 + c / 64 % 64 * 256 + c % 64 * 0x10000;
    select(c < 0x80, one, select(c < 0x800, two, three))
}

fn pack(codes: &[u32], words: &mut [u32])
    requires { length codes.now ≡ length words.old }
    ensures { Filled (λ k. packed_code (get_or codes.now k 0)) words.old
        0 (length words.old) words.new }
{
    for (i, word) in words.iter_mut().enumerate() {
        *word = packed(codes[i]);
    }
}

// The four bytes of a word, laid from `at` on.
fn put_u32_le(word: u32, out: &mut [u8], at: usize)
    requires { at + 4 ≤ length out.old }
    ensures { out.new ≡ splice out.old at (word_bytes word) }
{
    put_u16_le((word % 0x10000) as u16, out, at);
    put_u16_le((word / 0x10000) as u16, out, at + 2);
}

// Scalar values of at most three bytes each: four bytes are laid of each, and the next one's over what is too much.
pub fn lay_text_block(codes: &[u32], out: &mut [u8], from: usize, until: usize) -> usize
    requires { CodesBlockRoom codes.now out.old from until × EachBelow codes.now 0x10000 }
    ensures { TextLaid codes.now out.old from until result out.new }
{
    let mut words = [0u32; 64];
    pack(codes, &mut words);
    let mut at = from;
    for word in &words {
        put_u32_le(*word, out, at);
        at += (*word / 0x1000000) as usize;
    }
    at
}
