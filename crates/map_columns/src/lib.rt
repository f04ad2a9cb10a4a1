// Code points in the place of a text's characters: their bytes, and what a column has for each character, given to
// them.
// Each function here is an inner one: there are characters enough, and room for the result.
#![tactic(auto)]

ghost use Rattle.std.specs.Prelude.{◌≡◌, ◌+◌, ◌≤◌, length, replicate};
ghost use Rattle.buffers.specs.Over.{Over};
ghost use Rattle.map_columns.specs.Laying.{CodesLaid, CodesRoom, CharsLaid, CharsRoom, same_leads};

use buffers::lanes::select;
use buffers::{Offset, copy, fill};
use code_points::lay_text;
use note::NormalizedByte;
use utf8::continues;
use utf8::lead::len_utf8;

// How far the code points reach: in the text whose characters they replace, and in the buffers.
#[derive(Clone, Copy)]
pub struct Reached {
    pub position: usize,
    pub written: usize,
}

// Whether characters begin at the same bytes of two texts.
fn same_leads(a: &[u8], b: &[u8]) -> bool
    requires { length a.now ≡ length b.now }
    ensures { result ≡ same_leads a.now b.now }
{
    let mut ok = true;
    for (i, byte) in a.iter().enumerate() {
        ok = ok & (continues(*byte) == continues(b[i]));
    }
    ok
}

// `count` times `value`, at most four, is in `dst` from `at` on: four at once where that stays below `until`.
fn fill_char(value: Offset, count: usize, dst: &mut [Offset], at: usize, until: usize)
    requires { (at + count ≤ length dst.old) × ((until ≤ length dst.old) × (count ≤ 4)) }
    ensures { Over (replicate count value) dst.old at until dst.new }
{
    if at + 4 <= until {
        fill(value, 4, dst, at);
        return;
    }
    fill(value, count, dst, at);
}

// What the columns have for each character from `position` on, for each code point in its place, laid from `from` on;
// how many bytes of the text were read. Byte by byte: no branch asks how long a character is.
fn lay_chars(
    text: &[u8],
    starts: &[Offset],
    ends: &[Offset],
    position: usize,
    codes: &[u32],
    out_starts: &mut [Offset],
    out_ends: &mut [Offset],
    from: usize,
    until: usize,
) -> usize
    requires { CharsRoom text.now starts.now ends.now position codes.now
        out_starts.old out_ends.old from until }
    ensures { CharsLaid text.now starts.now ends.now position
        codes.now out_starts.old out_ends.old from until
        result out_starts.new out_ends.new }
{
    let mut q = position;
    let mut at = from;
    let mut i = 0;
    while i < codes.len() {
        let lead = !continues(text[q]);
        let size = select(lead, len_utf8(codes[i]), 0);
        fill_char(starts[q], size, out_starts, at, until);
        fill_char(ends[q], size, out_ends, at, until);
        at += size;
        i += lead as usize;
        q += 1;
    }
    q
}

// Code points in the place of the characters from `position` on. Where their bytes begin characters at the same places,
// the columns are copied.
pub fn lay_codes(
    text: &[u8],
    starts: &[Offset],
    ends: &[Offset],
    position: NormalizedByte,
    codes: &[u32],
    out: &mut [u8],
    out_starts: &mut [Offset],
    out_ends: &mut [Offset],
    from: usize,
    until: usize,
) -> Reached
    requires { CodesRoom text.now starts.now ends.now position.0 codes.now
        out.old out_starts.old out_ends.old from until }
    ensures { CodesLaid text.now starts.now ends.now position.0
        codes.now out.old out_starts.old out_ends.old from until
        result out.new out_starts.new out_ends.new }
{
    let first = position.0 as usize;
    let written = lay_text(codes, out, from, until);
    let size = written - from;
    if size <= text.len() - first {
        let end = first + size;
        if same_leads(&text[first..end], &out[from..written]) {
            copy(&starts[first..end], out_starts, from);
            copy(&ends[first..end], out_ends, from);
            return Reached {
                position: end,
                written,
            };
        }
    }
    let end = lay_chars(
        text, starts, ends, first, codes, out_starts, out_ends, from, until,
    );
    Reached {
        position: end,
        written,
    }
}
