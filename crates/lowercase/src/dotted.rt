// U+0130 in a text, which lowercase makes one byte longer, and a column of the longer text.
ghost use Rattle.std.specs.Prelude.{◌≡◌, ◌≤◌, length};
ghost use Rattle.buffers.specs.Splice.{overlay};
ghost use Rattle.lowercase.specs.Laying.{ColumnRoom, dotted_at, dotted_pairs, dotted_sum, grown};

use buffers::{Offset, copy, fill};

// Whether the two bytes are those of U+0130, as a number.
fn dotted_at(a: u8, b: u8) -> u8
    ensures { result ≡ dotted_at a b }
{
    ((a == 0xC4) & (b == 0xB0)) as u8
}

// How often a byte of `a` and the one of `b` at its place are those of U+0130. An inner function: there are at most
// 255, so that their number fits one byte, and the loop has no way out inside: so it is vectorised.
fn block_dotted(a: &[u8], b: &[u8]) -> u8
    requires { (length a.now ≡ length b.now) × (length a.now ≤ 255) }
    ensures { result ≡ dotted_sum a.now b.now }
{
    let mut n: u8 = 0;
    for (i, byte) in a.iter().enumerate() {
        n += dotted_at(*byte, b[i]);
    }
    n
}

// How many U+0130 a well-formed text has: how often its two bytes are in the text.
pub fn count_dotted(text: &[u8]) -> usize
    ensures { result ≡ dotted_pairs text.now }
{
    if text.len() == 0 {
        return 0;
    }
    let mut n: usize = 0;
    let blocks = (text.len() - 1) / 128;
    for block in 0..blocks {
        let i = block * 128;
        n += block_dotted(&text[i..i + 128], &text[i + 1..i + 129]) as usize;
    }
    let i = blocks * 128;
    n + (block_dotted(&text[i..text.len() - 1], &text[i + 1..]) as usize)
}

// A column of the text in lowercase, which has `size` bytes: the second byte of U+0130 has its value twice, for the
// added character too. Without U+0130 the column is copied. An inner function: there is room for that size.
pub fn lay_column(text: &[u8], column: &[Offset], size: usize, out: &mut [Offset])
    requires { ColumnRoom text.now column.now size out.old }
    ensures { out.new ≡ overlay (grown text.now column.now) out.old }
{
    if size == text.len() {
        copy(column, out, 0);
        return;
    }
    let mut before: u8 = 0;
    let mut at = 0;
    for (i, byte) in text.iter().enumerate() {
        let count = 1 + dotted_at(before, *byte) as usize;
        fill(column[i], count, out, at);
        at += count;
        before = *byte;
    }
}
