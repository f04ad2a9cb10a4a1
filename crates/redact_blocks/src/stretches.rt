// The starting note of a text, laid straight from the text: its bytes, and the alignments that it would have, counted
// from the bytes beside them; and a content in the place of a match.
// Each function here is an inner one: text and room were judged before.
ghost use Rattle.std.specs.Prelude.{◌+◌, ◌≤◌, length};
ghost use Rattle.validity_blocks.specs.Extremes.{largest};
ghost use Rattle.redact_blocks.specs.Keeping.{ContentLaid, ContentRoom, Stretch, StretchRoom};

use buffers::blocks::{copy_block, copy_front_over, fill_over};
use buffers::{Offset, copy};
use column_blocks::plain::count_up;
use column_blocks::{pairs, runs};
use utf8::ranges::{char_end, char_start};

// The byte at `i` with its alignment.
pub fn lay_byte(
    text: &[u8],
    i: usize,
    out: &mut [u8],
    out_starts: &mut [Offset],
    out_ends: &mut [Offset],
    at: usize,
)
    requires { StretchRoom text.now i (i + 1) out.old out_starts.old out_ends.old at }
    ensures { Stretch text.now i (i + 1)
        out.old out_starts.old out_ends.old at 0
        out.new out_starts.new out_ends.new }
{
    let start = char_start(text, i);
    let end = char_end(text, i);
    out[at] = text[i];
    out_starts[at] = start as Offset;
    out_ends[at] = end as Offset;
}

// The 64 bytes from `i` on with their alignments. No byte of the text is larger than `max_byte`: it tells how long its
// characters are at most.
pub fn lay_block(
    text: &[u8],
    max_byte: u8,
    i: usize,
    out: &mut [u8],
    out_starts: &mut [Offset],
    out_ends: &mut [Offset],
    at: usize,
)
    requires stretch_room { StretchRoom text.now i (i + 64) out.old out_starts.old out_ends.old at
        × ((3 ≤ i) × (i + 67 ≤ length text.now)) }
    requires text_bound { largest text.now ≤ max_byte }
    ensures { Stretch text.now i (i + 64)
        out.old out_starts.old out_ends.old at 0
        out.new out_starts.new out_ends.new }
{
    copy_block::<u8, 64>(text, i, out, at);
    if max_byte < 0x80 {
        count_up(i as Offset, out_starts, at);
        count_up(i as Offset + 1, out_ends, at);
        return;
    }
    if max_byte < 0xF0 {
        pairs::starts_block(text, i, out_starts, at);
        pairs::ends_block(text, i, out_ends, at);
        return;
    }
    runs::starts_block(text, i, out_starts, at);
    runs::ends_block(text, i, out_ends, at);
}

// The content, which is the first `content_len` bytes of `padded`, in the place of a match that ends at `end`; up to 16
// elements are written.
pub fn fill(
    text: &[u8],
    end: usize,
    padded: &[u8],
    content_len: usize,
    out: &mut [u8],
    out_starts: &mut [Offset],
    out_ends: &mut [Offset],
    at: usize,
)
    requires { ContentRoom text.now end padded.now content_len (at + 16)
        out.old out_starts.old out_ends.old at }
    ensures { ContentLaid text.now end padded.now content_len
        out.old out_starts.old out_ends.old at (at + 16)
        out.new out_starts.new out_ends.new }
{
    let first = char_start(text, end - 1) as Offset;
    let last = char_end(text, end - 1) as Offset;
    copy_front_over(padded, content_len, out, at, at + 16);
    fill_over(first, content_len, out_starts, at, at + 16);
    fill_over(last, content_len, out_ends, at, at + 16);
}

// The content in the place of a match that ends at `end`, by no block.
pub fn fill_exact(
    text: &[u8],
    end: usize,
    content: &[u8],
    out: &mut [u8],
    out_starts: &mut [Offset],
    out_ends: &mut [Offset],
    at: usize,
)
    requires { ContentRoom text.now end content.now (length content.now) 0
        out.old out_starts.old out_ends.old at }
    ensures { ContentLaid text.now end content.now (length content.now)
        out.old out_starts.old out_ends.old at 0
        out.new out_starts.new out_ends.new }
{
    let first = char_start(text, end - 1) as Offset;
    let last = char_end(text, end - 1) as Offset;
    copy(content, out, at);
    buffers::fill(first, content.len(), out_starts, at);
    buffers::fill(last, content.len(), out_ends, at);
}
