// Offsets in characters (RULES 13.3): pairs of bytes, in front of two columns, become characters of a text. Each function
// here is an inner one: the text and the room were judged before.
#![tactic(auto)]

ghost use Rattle.std.specs.Prelude.{◌≡◌, true, ◌+◌, ◌≤◌, ◌<◌, length};
ghost use Rattle.buffers.specs.Splice.{part};
ghost use Rattle.utf8.specs.Chars.{leads};
ghost use Rattle.validity.specs.Texts.{ascii};
ghost use Rattle.note.specs.Notes.{limit};
ghost use Rattle.char_offsets.specs.Positions.{index_of};
ghost use Rattle.char_columns.specs.Steps.{BothKnown, CharsCounted, EndsCounted, Known, Near};
ghost use Rattle.char_columns.specs.Steps.{near_flags, PairsReady, PlainEnd, Stepped};

use buffers::fill;
use char_offsets::index_from;
use checks::least_of_two;
use convert::OffsetReferential;
use note::rewrap::looked_up_as_original;
use note::{CharIndex, NormalizedByte, OriginalByte};
use utf8::continues;
use validity::is_ascii;

// What offsets count (Rust: `OffsetType`).
#[derive(Clone, Copy)]
pub enum OffsetType {
    Byte,
    Char,
}

// A byte of the transcript whose character is known. The loop over pieces goes on from it with plain numbers, since
// wrapped ones take longer; `in_chars` and `index_from` take wrapped ones.
#[derive(Clone, Copy)]
pub struct Cursor {
    pub at: usize,
    pub index: u32,
}

// The offsets of a piece in characters, or the bytes themselves where the transcript has none there; and a byte near
// each of its ends whose character is known.
#[derive(Clone, Copy)]
pub struct Offsets {
    pub start: u32,
    pub end: u32,
    pub first: Cursor,
    pub last: Cursor,
}

// The byte of the transcript at which the character of an offset is looked up (RULES 13.3): an offset of the transcript
// is that byte, one of the cleaned text is taken for it.
fn looked_up(side: OffsetReferential, offset: u32) -> OriginalByte
    ensures { result.0 ≡ offset }
{
    match side {
        OffsetReferential::Original => OriginalByte(offset),
        OffsetReferential::Normalized => looked_up_as_original(NormalizedByte(offset)),
    }
}

// The character of the byte `from`: that of the last byte where they are the same, as along pieces without a gap; else
// from the first one on.
fn start_index(text: &[u8], first: Cursor, last: Cursor, from: usize) -> u32
    requires both_known { BothKnown limit text.now first last }
    requires from_in_bounds { from < length text.now }
    ensures { result ≡ index_of text.now from }
{
    if from == last.at {
        return last.index;
    }
    let index = index_from(
        text,
        OriginalByte(first.at as u32),
        CharIndex(first.index),
        OriginalByte(from as u32),
    );
    index.0
}

// How many of the first `n` bytes from `from` on begin a character, of which there are at most 16: a block of 16 is
// looked at, each byte with its flag, 1 for the first `n` and 0 after them. A loop within loops: its numbers are plain.
fn first_leads(text: &[u8], flags: &[u8; 32], from: usize, n: usize) -> u8
    requires { Near text.now from n × (flags.now ≡ near_flags) }
    ensures { result ≡ leads (part text.now from (from + n)) }
{
    let skipped = 16 - n;
    let mut count: u8 = 0;
    for j in 0..16 {
        let begins = !continues(text[from + j]);
        count += begins as u8 & flags[skipped + j];
    }
    count
}

// The character of the byte `to`, from a byte that is most often at most 16 before it.
fn index_after(text: &[u8], flags: &[u8; 32], last: Cursor, to: usize) -> u32
    requires known { Known limit text.now last × (flags.now ≡ near_flags) }
    requires to_in_bounds { to < length text.now }
    ensures { result ≡ index_of text.now to }
{
    let at = last.at;
    if at <= to {
        if to - at <= 16 {
            if at + 17 <= text.len() {
                return last.index + first_leads(text, flags, at + 1, to - at) as u32;
            }
        }
    }
    let index = index_from(
        text,
        OriginalByte(at as u32),
        CharIndex(last.index),
        OriginalByte(to as u32),
    );
    index.0
}

// Two bytes as characters of the text; the bytes themselves where the text has none at `start`. Starts and ends have a
// byte each to go on from: along pieces neither goes back, so that a list takes one pass.
fn in_chars(
    text: &[u8],
    flags: &[u8; 32],
    first: Cursor,
    last: Cursor,
    start: OriginalByte,
    end: OriginalByte,
) -> Offsets
    requires { BothKnown limit text.now first last × (flags.now ≡ near_flags) }
    ensures { Stepped limit text.now start.0 end.0 result }
{
    let from = start.0 as usize;
    let to = end.0 as usize;
    if text.len() <= from {
        return Offsets {
            start: start.0,
            end: end.0,
            first,
            last,
        };
    }
    let index = start_index(text, first, last, from);
    let first = Cursor { at: from, index };
    if text.len() < to {
        return Offsets {
            start: index,
            end: index + 2,
            first,
            last,
        };
    }
    let at = least_of_two(to, text.len() - 1);
    let past = index_after(text, flags, last, at);
    Offsets {
        start: index,
        end: past + (to - at) as u32,
        first,
        last: Cursor { at, index: past },
    }
}

// The end of a pair of bytes in characters of an ASCII text of `size` bytes: only one past the text is another number.
fn plain_end(size: u32, start: OriginalByte, end: OriginalByte) -> u32
    requires { size ≤ limit }
    ensures { PlainEnd size start.0 end.0 result }
{
    if start.0 < size {
        if size < end.0 {
            return start.0 + 2;
        }
    }
    end.0
}

// Pairs of bytes of an ASCII text become its characters, of which the starts are the bytes.
fn write_plain(
    text: &[u8],
    side: OffsetReferential,
    count: usize,
    out_starts: &[u32],
    out_ends: &mut [u32],
)
    requires pairs_ready { PairsReady limit text.now count out_starts.now out_ends.old }
    requires text_value { ascii text.now ≡ true }
    ensures { EndsCounted text.now count out_starts.now
        out_ends.old out_ends.new }
{
    for k in 0..count {
        let start = looked_up(side, out_starts[k]);
        let end = looked_up(side, out_ends[k]);
        out_ends[k] = plain_end(text.len() as u32, start, end);
    }
}

// Pairs of offsets become characters of the text.
fn count_chars(
    text: &[u8],
    side: OffsetReferential,
    count: usize,
    out_starts: &mut [u32],
    out_ends: &mut [u32],
)
    requires { PairsReady limit text.now count out_starts.old out_ends.old }
    ensures { CharsCounted text.now count out_starts.old out_ends.old
        out_starts.new out_ends.new }
{
    let mut flags = [0u8; 32];
    fill(1, 16, &mut flags, 0);
    let mut first = Cursor { at: 0, index: 0 };
    let mut last = first;
    for k in 0..count {
        let start = looked_up(side, out_starts[k]);
        let end = looked_up(side, out_ends[k]);
        let offsets = in_chars(text, &flags, first, last, start, end);
        out_starts[k] = offsets.start;
        out_ends[k] = offsets.end;
        first = offsets.first;
        last = offsets.last;
    }
}

// Pairs of offsets become characters of the text. In an ASCII text each byte is one, so that only ends past it change.
pub fn write_chars(
    text: &[u8],
    side: OffsetReferential,
    count: usize,
    out_starts: &mut [u32],
    out_ends: &mut [u32],
)
    requires { PairsReady limit text.now count out_starts.old out_ends.old }
    ensures { CharsCounted text.now count out_starts.old out_ends.old
        out_starts.new out_ends.new }
{
    if is_ascii(text) {
        write_plain(text, side, count, out_starts, out_ends);
    } else {
        count_chars(text, side, count, out_starts, out_ends);
    }
}
