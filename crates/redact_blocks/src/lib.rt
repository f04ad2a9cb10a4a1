// Blanking a literal in the starting note of a text, laid straight from the text: neither the note nor a list is
// written. A block of 64 bytes is searched and laid whole, then the position goes on to the first candidate in it; what
// was laid beyond is overwritten by the content and the next block, and ends within the result. Where a block cannot be
// laid, what is left is laid byte by byte.
// Each function here is an inner one: text, literal and room were judged before.
#![tactic(auto)]

pub mod stretches;

ghost use Rattle.std.specs.Prelude.{◌≡◌, ◌≤◌, ◌<◌, length, take};
ghost use Rattle.buffers.specs.Same.{same};
ghost use Rattle.find.specs.Matching.{occurs_at};
ghost use Rattle.redact_blocks.specs.Blanks.{AllBlanked, Blankable, Blanked, BlockPassed, Bounded};
ghost use Rattle.redact_blocks.specs.Blanks.{FrontAt, FrontOf, SearchBlockRoom};

use buffers::{Offset, copy};
use checks::least_of_two;
use find::search::{first_candidate, occurs_at};
use stretches::{fill, fill_exact, lay_block, lay_byte};

// How far a result is laid: the text's bytes before `i` are what it has before `at`.
#[derive(Clone, Copy)]
pub struct Reached {
    pub i: usize,
    pub at: usize,
}

// Whether the literal is in the text at `p`.
fn stands(text: &[u8], literal: &[u8], p: usize) -> bool
    requires { (0 < length literal.now) × (p ≤ length text.now) }
    ensures { result ≡ occurs_at text.now literal.now p }
{
    if text.len() - p < literal.len() {
        return false;
    }
    occurs_at(text, literal, p)
}

// Byte by byte from `from` on, up to `stop` or the end of a match past it; the result is laid before `base`.
pub fn blank_bytes(
    text: &[u8],
    literal: &[u8],
    content: &[u8],
    from: usize,
    base: usize,
    stop: usize,
    out: &mut [u8],
    out_starts: &mut [Offset],
    out_ends: &mut [Offset],
) -> Reached
    requires { Blankable text.now literal.now content.now from base
        out.old out_starts.old out_ends.old × (stop ≤ length text.now) }
    ensures { Blanked text.now literal.now content.now from base
        out.old out_starts.old out_ends.old result.i result.at
        out.new out_starts.new out_ends.new × (stop ≤ result.i) }
{
    let mut i = from;
    let mut at = base;
    while i < stop {
        if stands(text, literal, i) {
            i += literal.len();
            fill_exact(text, i, content, out, out_starts, out_ends, at);
            at += content.len();
        } else {
            lay_byte(text, i, out, out_starts, out_ends, at);
            i += 1;
            at += 1;
        }
    }
    Reached { i, at }
}

// Whether the first `front_len` of 16 bytes are the same. No branch inside, so that the loop is vectorised.
fn same_front(a: &[u8], b: &[u8], front_len: u8) -> bool
    requires { (16 ≤ length a.now) × (16 ≤ length b.now) × (front_len ≤ 16) }
    ensures { result ≡ same (take front_len a.now) (take front_len b.now) }
{
    let mut ok = true;
    for j in 0..16u8 {
        let k = j as usize;
        ok = ok & ((a[k] == b[k]) | (front_len <= j));
    }
    ok
}

// Whether the literal is in the text at `p`, told by its first bytes, which `front` has, and where there are more
// than 16 by all of them.
fn begins(text: &[u8], literal: &[u8], front: &[u8], p: usize) -> bool
    requires { FrontAt text.now literal.now front.now p }
    ensures { result ≡ occurs_at text.now literal.now p }
{
    let front_len = least_of_two(16, literal.len()) as u8;
    if !same_front(&text[p..p + 16], front, front_len) {
        return false;
    }
    if literal.len() <= 16 {
        return true;
    }
    occurs_at(text, literal, p)
}

// The 64 bytes from `i` on, searched and laid; how many of them stand before the first candidate. The search comes
// first: the next block waits for it alone.
fn lay_ahead(
    text: &[u8],
    max_byte: u8,
    literal: &[u8],
    first: u8,
    last: u8,
    i: usize,
    out: &mut [u8],
    out_starts: &mut [Offset],
    out_ends: &mut [Offset],
    at: usize,
) -> usize
    requires { SearchBlockRoom text.now max_byte literal.now first last i
        out.old out_starts.old out_ends.old at }
    ensures { BlockPassed text.now literal.now i
        out.old out_starts.old out_ends.old at result
        out.new out_starts.new out_ends.new }
{
    let j = i + (literal.len() - 1);
    let k = first_candidate(&text[i..i + 64], &text[j..j + 64], first, last);
    if k == 0 {
        return 0;
    }
    lay_block(text, max_byte, i, out, out_starts, out_ends, at);
    k
}

// In blocks from `from` on, while `margin` bytes of the text are left and 80 elements end below `until`; the result is
// laid before `base`. `gap` is how far `at` is ahead of `i`, and the text's length: one number goes on with each block.
pub fn blank_blocks(
    text: &[u8],
    max_byte: u8,
    literal: &[u8],
    front: &[u8],
    content: &[u8],
    padded: &[u8],
    margin: usize,
    until: usize,
    from: usize,
    base: usize,
    out: &mut [u8],
    out_starts: &mut [Offset],
    out_ends: &mut [Offset],
) -> Reached
    requires { Blankable text.now literal.now content.now from base
        out.old out_starts.old out_ends.old
        × Bounded text.now max_byte literal.now content.now padded.now from base margin until
        × (3 ≤ length text.now → 3 ≤ from) × FrontOf literal.now front.now }
    ensures { Blanked text.now literal.now content.now from base
        out.old out_starts.old out_ends.old result.i result.at
        out.new out_starts.new out_ends.new }
{
    let first = literal[0];
    let last = literal[literal.len() - 1];
    let len = content.len();
    let mut i = from;
    let mut gap = base + text.len() - from;
    while margin <= text.len() - i {
        let at = i + gap - text.len();
        if until < at + 80 {
            return Reached { i, at };
        }
        let k = lay_ahead(
            text, max_byte, literal, first, last, i, out, out_starts, out_ends, at,
        );
        i += k;
        if k < 64 {
            let here = at + k;
            if begins(text, literal, front, i) {
                i += literal.len();
                fill(text, i, padded, len, out, out_starts, out_ends, here);
                gap = gap + len - literal.len();
            } else {
                lay_byte(text, i, out, out_starts, out_ends, here);
                i += 1;
            }
        }
    }
    let at = i + gap - text.len();
    Reached { i, at }
}

// A literal's first bytes, up to 16, in front of 16.
fn front_of(literal: &[u8]) -> [u8; 16]
    ensures { FrontOf literal.now result }
{
    let mut front = [0u8; 16];
    let front_len = least_of_two(16, literal.len());
    copy(&literal[0..front_len], &mut front, 0);
    front
}

// All of the text: the first bytes one by one, since a block counts from the three before it, then blocks, then what is
// left; how many bytes there are then.
pub fn blank(
    text: &[u8],
    max_byte: u8,
    literal: &[u8],
    content: &[u8],
    padded: &[u8],
    margin: usize,
    until: usize,
    out: &mut [u8],
    out_starts: &mut [Offset],
    out_ends: &mut [Offset],
) -> usize
    requires { Blankable text.now literal.now content.now 0 0 out.old out_starts.old out_ends.old
        × Bounded text.now max_byte literal.now content.now padded.now 0 0 margin until }
    ensures { AllBlanked text.now literal.now content.now
        out.old out_starts.old out_ends.old
        result out.new out_starts.new out_ends.new }
{
    let stop = least_of_two(3, text.len());
    let begun = blank_bytes(
        text, literal, content, 0, 0, stop, out, out_starts, out_ends,
    );
    let front = front_of(literal);
    let laid = blank_blocks(
        text, max_byte, literal, &front, content, padded, margin, until, begun.i, begun.at, out,
        out_starts, out_ends,
    );
    let all = blank_bytes(
        text,
        literal,
        content,
        laid.i,
        laid.at,
        text.len(),
        out,
        out_starts,
        out_ends,
    );
    all.at
}
