// A text and its two columns of alignments, copied together. An inner function: its callers have measured the room.
ghost use Rattle.buffers.specs.Keeping.{KeepRoom, PartKept};

use crate::{Offset, copy};

// Bytes that stay, with their alignments, laid into the buffers from `at` on.
pub fn keep(
    text: &[u8],
    starts: &[Offset],
    ends: &[Offset],
    from: usize,
    to: usize,
    out: &mut [u8],
    out_starts: &mut [Offset],
    out_ends: &mut [Offset],
    at: usize,
)
    requires { KeepRoom text.now starts.now ends.now from to
        out.old out_starts.old out_ends.old at }
    ensures { PartKept text.now starts.now ends.now from to
        out.old out_starts.old out_ends.old at
        out.new out_starts.new out_ends.new }
{
    copy(&text[from..to], out, at);
    copy(&starts[from..to], out_starts, at);
    copy(&ends[from..to], out_ends, at);
}
