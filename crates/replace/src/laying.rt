// The result of a replacement, laid place by place into the passed buffers, one column after the other.
// Each function here is an inner one: the list covers the text, and there is room for the result. Blocks are laid below
// `until`, which is within the result, and what they write past a place is overwritten by the next.
ghost use Rattle.std.specs.Prelude.{◌≤◌, length};
ghost use Rattle.buffers.specs.Splice.{part};
ghost use Rattle.replace.specs.Replacing.{carried};
ghost use Rattle.pattern.specs.Entries.{places_of};
ghost use Rattle.replace.specs.Sizes.{places_size};
ghost use Rattle.replace.specs.Laying.{AllLaid, ColumnLaid, ColumnReady, PlaceLaid, PlaceRoom, Ready};

use buffers::blocks::{copy_front_over, copy_over, fill_over};
use buffers::{Offset, copy};
use note::before_end;
use pattern::{Place, entry_at};

// A place's bytes, or the content in the place of a matched one, in `out` from `at` on; how far it reaches then. Here
// and below the content is the first `content_len` bytes of `padded`.
fn lay_bytes(
    text: &[u8],
    place: Place,
    padded: &[u8],
    content_len: usize,
    until: usize,
    out: &mut [u8],
    at: usize,
) -> usize
    requires { PlaceRoom text.now content_len place until out.old at × (content_len ≤ length padded.now) }
    ensures { PlaceLaid (λ end. part padded.now 0 content_len) text.now content_len
        place until out.old at result out.new }
{
    let start = place.start;
    let end = place.end;
    let from = start.0 as usize;
    let to = end.0 as usize;
    if place.matched {
        copy_front_over(padded, content_len, out, at, until);
        return at + content_len;
    }
    copy_over(text, from, to, out, at, until);
    at + (to - from)
}

// A place's alignments, or for each byte of a content of `content_len` bytes the alignment before its end.
fn lay_offsets(
    column: &[Offset],
    place: Place,
    content_len: usize,
    until: usize,
    out: &mut [Offset],
    at: usize,
) -> usize
    requires { PlaceRoom column.now content_len place until out.old at }
    ensures { PlaceLaid (carried content_len column.now) column.now content_len
        place until out.old at result out.new }
{
    let start = place.start;
    let end = place.end;
    let from = start.0 as usize;
    let to = end.0 as usize;
    if place.matched {
        fill_over(before_end(column, to), content_len, out, at, until);
        return at + content_len;
    }
    copy_over(column, from, to, out, at, until);
    at + (to - from)
}

// Every place's bytes, one after the other; how many they are.
fn lay_text(
    text: &[u8],
    list: &[u8],
    padded: &[u8],
    content_len: usize,
    until: usize,
    out: &mut [u8],
) -> usize
    requires { ColumnReady text.now list.now content_len until out.old
        × (content_len ≤ length padded.now) }
    ensures { ColumnLaid (λ end. part padded.now 0 content_len) text.now
        list.now out.old result out.new }
{
    let mut at = 0;
    let mut i = 0;
    while i < list.len() {
        let Some((place, next)) = entry_at(list, i) else {
            return at;
        };
        at = lay_bytes(text, place, padded, content_len, until, out, at);
        i = next;
    }
    at
}

// Every place's alignments of one column.
fn lay_column(
    column: &[Offset],
    list: &[u8],
    content_len: usize,
    until: usize,
    out: &mut [Offset],
) -> usize
    requires { ColumnReady column.now list.now content_len until out.old }
    ensures { ColumnLaid (carried content_len column.now) column.now list.now
        out.old result out.new }
{
    let mut at = 0;
    let mut k = 0;
    while k < list.len() {
        let Some((place, next)) = entry_at(list, k) else {
            return at;
        };
        at = lay_offsets(column, place, content_len, until, out, at);
        k = next;
    }
    at
}

// Every place's bytes beside a content; a short one is padded, so that a block of it can be laid.
fn lay_filled(text: &[u8], list: &[u8], content: &[u8], until: usize, out: &mut [u8]) -> usize
    requires { ColumnReady text.now list.now (length content.now) until out.old }
    ensures { ColumnLaid (λ end. content.now) text.now list.now
        out.old result out.new }
{
    if 16 < content.len() {
        return lay_text(text, list, content, content.len(), until, out);
    }
    let mut padded = [0u8; 80];
    copy(content, &mut padded, 0);
    lay_text(text, list, &padded, content.len(), until, out)
}

// Every place of a list that covers the text, one after the other; how many bytes they give.
pub fn lay_out(
    normalized: &[u8],
    starts: &[Offset],
    ends: &[Offset],
    list: &[u8],
    content: &[u8],
    until: usize,
    out: &mut [u8],
    out_starts: &mut [Offset],
    out_ends: &mut [Offset],
) -> usize
    requires ready { Ready normalized.now starts.now ends.now list.now content.now
        out.old out_starts.old out_ends.old }
    requires until_bound { until ≤ places_size (length content.now) (places_of list.now) }
    ensures { AllLaid normalized.now starts.now ends.now
        list.now content.now
        out.old out_starts.old out_ends.old
        result out.new out_starts.new out_ends.new }
{
    lay_column(starts, list, content.len(), until, out_starts);
    lay_column(ends, list, content.len(), until, out_ends);
    lay_filled(normalized, list, content, until, out)
}
