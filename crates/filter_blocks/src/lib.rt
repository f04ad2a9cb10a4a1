// The whole text filtered: where a note has no head (RULES 8), kept characters keep their alignments.
// Each function here is an inner one: the text is well-formed, and has a flag for each character.
#![tactic(auto)]

ghost use Rattle.std.specs.Prelude.{◌≡◌, ◌+◌, ◌≤◌};
ghost use Rattle.note.specs.Notes.{limit};
ghost use Rattle.filter_blocks.specs.Counting.{BeforeFour, kept_len, KeptSoFar, CharsKept, KeptCharsRoom};
ghost use Rattle.filter_blocks.specs.Chosen.{FlagEach, all_kept, KeptEnd, KeptLaid, KeptRoom, is_whole};

use buffers::Offset;
use buffers::blocks::copy_block;
use note::{LIMIT, NormalizedByte};
use utf8::continues;
use utf8::lead::lead_len;

// How far a filter is: the byte of the text and the flag that are next, and how many bytes have been written.
#[derive(Clone, Copy)]
pub struct Filtered {
    pub read: usize,
    pub flag: usize,
    pub written: usize,
}

// Whether a range is the whole text, and there is room for all of it.
pub fn is_whole(from: NormalizedByte, to: NormalizedByte, size: usize, room: usize) -> bool
    ensures { result ≡ is_whole limit from.0 to.0 size room }
{
    let end = to.0 as usize;
    (from.0 == 0) & (end == size) & (size <= LIMIT) & (size <= room)
}

// Whether no flag drops its character.
pub fn all_kept(flags: &[u8]) -> bool
    ensures { result ≡ all_kept flags.now }
{
    let mut ok = true;
    for flag in flags {
        ok = ok & (*flag != 0);
    }
    ok
}

// Where the last kept character ends.
pub fn kept_end(text: &[u8], flags: &[u8]) -> usize
    requires { FlagEach text.now flags.now }
    ensures { KeptEnd text.now flags.now result }
{
    let mut q = text.len();
    let mut i = flags.len();
    while 0 < i {
        if flags[i - 1] != 0 {
            break;
        }
        q -= 1;
        i -= (!continues(text[q])) as usize;
    }
    q
}

// As many flags as stand before the last four that keep their characters; 0 where fewer do.
fn before_four(flags: &[u8]) -> usize
    ensures { BeforeFour flags.now result }
{
    let mut n = 0;
    for i in (0..flags.len()).rev() {
        n += (flags[i] != 0) as usize;
        if n == 4 {
            return i;
        }
    }
    0
}

// How many bytes a flag keeps of so many, without a branch.
pub fn kept_len(flag: u8, size: usize) -> usize
    ensures { result ≡ kept_len flag size }
{
    if flag == 0 {
        return 0;
    }
    size
}

// The kept characters of the first `stop` flags: four bytes of each character are laid, and the next one over what is
// too much or not kept. Four more characters are kept after these, so that nothing is laid past the result.
fn lay_chars(
    text: &[u8],
    starts: &[Offset],
    ends: &[Offset],
    flags: &[u8],
    stop: usize,
    out: &mut [u8],
    out_starts: &mut [Offset],
    out_ends: &mut [Offset],
) -> Filtered
    requires { KeptCharsRoom text.now starts.now ends.now flags.now stop
        out.old out_starts.old out_ends.old }
    ensures { CharsKept text.now starts.now ends.now flags.now
        stop out.old out_starts.old out_ends.old
        result out.new out_starts.new out_ends.new }
{
    let mut q = 0;
    let mut at = 0;
    for i in 0..stop {
        let size = lead_len(text[q]);
        copy_block::<u8, 4>(text, q, out, at);
        copy_block::<Offset, 4>(starts, q, out_starts, at);
        copy_block::<Offset, 4>(ends, q, out_ends, at);
        at += kept_len(flags[i], size);
        q += size;
    }
    Filtered {
        read: q,
        flag: stop,
        written: at,
    }
}

// The kept characters from a byte on, with their alignments; how many bytes all are. Every byte is laid, and the next
// one over it where it is not kept: no branch asks for a flag. Up to `end` a kept byte is still to come, so that none
// is laid past the result.
fn lay_rest(
    text: &[u8],
    starts: &[Offset],
    ends: &[Offset],
    flags: &[u8],
    end: usize,
    from: Filtered,
    out: &mut [u8],
    out_starts: &mut [Offset],
    out_ends: &mut [Offset],
) -> usize
    requires { KeptRoom text.now starts.now ends.now flags.now end
        out.old out_starts.old out_ends.old
        × KeptSoFar text.now starts.now ends.now flags.now end
        out.old out_starts.old out_ends.old from.read from.flag from.written
        out.old out_starts.old out_ends.old }
    ensures { KeptLaid text.now starts.now ends.now flags.now
        out.old out_starts.old out_ends.old
        result out.new out_starts.new out_ends.new }
{
    let mut i = from.flag;
    let mut at = from.written;
    for q in from.read..end {
        i += (!continues(text[q])) as usize;
        out[at] = text[q];
        out_starts[at] = starts[q];
        out_ends[at] = ends[q];
        at += (flags[i - 1] != 0) as usize;
    }
    at
}

// All kept characters with their alignments, of which the last ends at `end`; how many bytes they are.
pub fn lay_kept(
    text: &[u8],
    starts: &[Offset],
    ends: &[Offset],
    flags: &[u8],
    end: usize,
    out: &mut [u8],
    out_starts: &mut [Offset],
    out_ends: &mut [Offset],
) -> usize
    requires { KeptRoom text.now starts.now ends.now flags.now end
        out.old out_starts.old out_ends.old }
    ensures { KeptLaid text.now starts.now ends.now flags.now
        out.old out_starts.old out_ends.old
        result out.new out_starts.new out_ends.new }
{
    let stop = before_four(flags);
    let from = lay_chars(text, starts, ends, flags, stop, out, out_starts, out_ends);
    lay_rest(
        text, starts, ends, flags, end, from, out, out_starts, out_ends,
    )
}
