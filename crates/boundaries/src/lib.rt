// Whether alignments cut no character of the transcript, for alignments that never go back. In a block of 64 the byte
// at each start is read; where each alignment is the one whole character that this byte leads, as in most notes, no end
// is looked up.
#![tactic(auto)]

ghost use Rattle.std.specs.Prelude.{◌≡◌, true, ◌≤◌, length, get_or};
ghost use Rattle.buffers.specs.Columns.{Filled};
ghost use Rattle.utf8.specs.Formed.{well_formed};
ghost use Rattle.boundaries.specs.Monotone.{monotone, uncut, uncut_below};
ghost use Rattle.utf8.specs.Lengths.{lead_len};
ghost use Rattle.boundaries.specs.Spanning.{StartsInside, leads_below, spans_below};

use buffers::Offset;
use utf8::continues;
use utf8::lead::lead_len_lane;

// The alignments of a block.
const BLOCK: usize = 64;

// Whether no character of the text is cut at `p`.
fn uncut(original: &[u8], p: Offset) -> bool
    ensures { result ≡ uncut original.now p }
{
    let i = p as usize;
    if i < original.len() {
        return !continues(original[i]);
    }
    true
}

fn all_uncut(original: &[u8], starts: &[Offset], ends: &[Offset]) -> bool
    requires { length ends.now ≡ length starts.now }
    ensures { result ≡ uncut_below original.now starts.now ends.now
        (length starts.now) }
{
    let mut ok = true;
    for i in 0..starts.len() {
        ok = ok & (uncut(original, starts[i]) & uncut(original, ends[i]));
    }
    ok
}

// The byte of the transcript at each start.
fn read_at(original: &[u8], starts: &[Offset], bytes: &mut [u8])
    requires bytes_in_bounds { length bytes.old ≤ length starts.now }
    requires starts_inside { StartsInside original.now starts.now }
    ensures { Filled (λ k. get_or original.now (get_or starts.now k 0) 0)
        bytes.old 0 (length bytes.old) bytes.new }
{
    for j in 0..bytes.len() {
        bytes[j] = original[starts[j] as usize];
    }
}

fn write_widths(bytes: &[u8], widths: &mut [u8])
    requires { length widths.old ≤ length bytes.now }
    ensures { Filled (λ k. lead_len (get_or bytes.now k 0)) widths.old 0
        (length widths.old) widths.new }
{
    for j in 0..widths.len() {
        widths[j] = lead_len_lane(bytes[j]);
    }
}

// Whether no byte continues a character.
fn all_lead(bytes: &[u8]) -> bool
    ensures { result ≡ leads_below bytes.now (length bytes.now) }
{
    let mut ok = true;
    for b in bytes {
        ok = ok & !continues(*b);
    }
    ok
}

// Whether each alignment is as long as its width.
fn widths_match(widths: &[u8], starts: &[Offset], ends: &[Offset]) -> bool
    requires { (length widths.now ≤ length starts.now) × (length widths.now ≤ length ends.now) }
    ensures { result ≡ spans_below widths.now starts.now ends.now
        (length widths.now) }
{
    let mut apart: Offset = 0;
    for j in 0..widths.len() {
        apart = apart | (ends[j].saturating_sub(starts[j]) ^ widths[j] as Offset);
    }
    apart == 0
}

// Whether each alignment of a block of 64 is one whole character. An inner function: the transcript was judged, and
// every start is inside it. The bytes are the caller's, so that not every block clears them.
fn whole_chars(original: &[u8], starts: &[Offset], ends: &[Offset], bytes: &mut [u8; BLOCK]) -> bool
    requires starts_len { (length starts.now ≡ 64) × (length ends.now ≡ 64) }
    requires starts_inside { StartsInside original.now starts.now }
    ensures { result ≡ true
        → uncut_below original.now starts.now ends.now 64 ≡ true }
{
    read_at(original, starts, bytes);
    let mut widths = [0u8; BLOCK];
    write_widths(bytes, &mut widths);
    if !all_lead(bytes) {
        return false;
    }
    widths_match(&widths, starts, ends)
}

// Whether a block cuts no character.
fn block_uncut(original: &[u8], starts: &[Offset], ends: &[Offset], bytes: &mut [u8; BLOCK]) -> bool
    requires starts_len { (length starts.now ≡ 64) × (length ends.now ≡ 64) }
    requires starts_inside { StartsInside original.now starts.now }
    ensures { result ≡ uncut_below original.now starts.now ends.now 64 }
{
    if whole_chars(original, starts, ends, bytes) {
        return true;
    }
    all_uncut(original, starts, ends)
}

// Whether no alignment of two columns cuts a character, block by block.
fn uncut_blocks(original: &[u8], starts: &[Offset], ends: &[Offset]) -> bool
    requires ends_len { length ends.now ≡ length starts.now }
    requires starts_inside { StartsInside original.now starts.now }
    ensures { result ≡ uncut_below original.now starts.now ends.now
        (length starts.now) }
{
    let mut bytes = [0u8; BLOCK];
    let blocks = starts.len() / BLOCK;
    for k in 0..blocks {
        let i = k * BLOCK;
        if !block_uncut(
            original,
            &starts[i..i + BLOCK],
            &ends[i..i + BLOCK],
            &mut bytes,
        ) {
            return false;
        }
    }
    let judged = blocks * BLOCK;
    all_uncut(original, &starts[judged..], &ends[judged..])
}

// Whether no alignment cuts a character of the transcript: in blocks where the last start, and so each, is inside it.
// An inner function: the transcript is well-formed, there is a start and an end for each cleaned byte, and the columns
// were found in order.
pub fn uncut_all(original: &[u8], normalized: &[u8], starts: &[Offset], ends: &[Offset]) -> bool
    requires original_value { (well_formed original.now ≡ true) × (length starts.now ≡ length normalized.now) }
    requires ends_len { (length ends.now ≡ length normalized.now) × (monotone normalized.now starts.now ends.now
        (length original.now) (length normalized.now) ≡ true) }
    ensures { result ≡ uncut_below original.now starts.now ends.now
        (length starts.now) }
{
    match starts.last() {
        Some(last) if (*last as usize) < original.len() => uncut_blocks(original, starts, ends),
        _ => all_uncut(original, starts, ends),
    }
}
