// Converting (RULES 4): a range of the transcript as a range of the cleaned text, and back.
#![tactic(auto)]

ghost use Rattle.std.specs.Prelude.{◌≡◌, ◌≤◌, ◌<◌, length, get_or};
ghost use Rattle.note.specs.Notes.{limit, passed};
ghost use Rattle.convert.specs.Converting.{as_normalized, as_original, converted, convert_offsets, end_of, expanded};
ghost use Rattle.convert.specs.Converting.{first_places, places_after, range_of, start_of, to_normalized};
ghost use Rattle.convert.specs.Converting.{to_original, walked};
ghost use Rattle.convert.specs.Blocks.{Block, OrderedColumns, settled};

use buffers::Offset;
use checks::check_note;
use note::rewrap::{same_in_normalized, same_in_original};
use note::{NormalizedByte, NormalizedString, OriginalByte, Refusal};

// The text that numbers are of (Rust: `OffsetReferential`).
#[derive(Clone, Copy)]
pub enum OffsetReferential {
    Original,
    Normalized,
}

// A range start..end, in the bytes of the one text or of the other (Rust: `Range`).
#[derive(Clone, Copy)]
pub enum Range {
    Original(OriginalByte, OriginalByte),
    Normalized(NormalizedByte, NormalizedByte),
}

pub fn range_of(side: OffsetReferential, from: u32, to: u32) -> Range
    ensures { result ≡ range_of side from to }
{
    match side {
        OffsetReferential::Original => Range::Original(OriginalByte(from), OriginalByte(to)),
        OffsetReferential::Normalized => Range::Normalized(
            NormalizedByte(from),
            NormalizedByte(to),
        ),
    }
}

// A range's numbers, in the text that it names.
pub fn start_of(range: Range) -> u32
    ensures { result ≡ start_of range }
{
    match range {
        Range::Original(from, _) => from.0,
        Range::Normalized(from, _) => from.0,
    }
}

pub fn end_of(range: Range) -> u32
    ensures { result ≡ end_of range }
{
    match range {
        Range::Original(_, to) => to.0,
        Range::Normalized(_, to) => to.0,
    }
}

// The first and the last place that a walk over the alignments has found so far (Rust: `(start, end)`, two options, of
// which one form never comes: an enum of the three that do).
#[derive(Clone, Copy)]
pub enum Places {
    Neither,
    Last(NormalizedByte),
    Both(NormalizedByte, NormalizedByte),
}

// The byte at `i` is walked, before a first place is found.
fn begin(i: NormalizedByte, start: Offset, end: Offset, from: u32) -> Places
    requires { i.0 < limit }
    ensures { result ≡ first_places from i.0 start end }
{
    let next = NormalizedByte(i.0 + 1);
    if (start as u32) < from {
        return Places::Last(next);
    }
    if start == end {
        return Places::Last(next);
    }
    Places::Both(i, next)
}

// The byte at `i` is walked.
fn step(found: Places, i: NormalizedByte, start: Offset, end: Offset, from: u32) -> Places
    requires { i.0 < limit }
    ensures { result ≡ places_after from i.0 start end found }
{
    match found {
        Places::Both(first, _) => Places::Both(first, NormalizedByte(i.0 + 1)),
        Places::Last(_) => begin(i, start, end, from),
        Places::Neither => begin(i, start, end, from),
    }
}

// A first place is found already, or none is at an alignment that starts at `start` or before.
fn settled(found: Places, start: Offset, from: u32) -> bool
    ensures { result ≡ settled from start found }
{
    match found {
        Places::Both(_, _) => true,
        Places::Last(_) => (start as u32) < from,
        Places::Neither => (start as u32) < from,
    }
}

// The last alignment of a block that one step walks: the block is the next 64, or the one at `i` alone. Neither column
// ever falls, so the last of 64 speaks for them all.
fn block_last(
    found: Places,
    starts: &[Offset],
    ends: &[Offset],
    i: usize,
    from: u32,
    to: u32,
) -> usize
    requires { (OrderedColumns limit starts.now ends.now) × (i < length ends.now)
        × (get_or ends.now i 0 ≤ to) }
    ensures { Block starts.now ends.now from to found i result }
{
    if ends.len() - i < 64 {
        return i;
    }
    let last = i + 63;
    if to < ends[last] as u32 {
        return i;
    }
    if !settled(found, starts[last], from) {
        return i;
    }
    last
}

// The alignments are walked up to the first that ends past the range.
fn walk(starts: &[Offset], ends: &[Offset], from: u32, to: u32) -> Places
    requires { OrderedColumns limit starts.now ends.now }
    ensures { result ≡ walked starts.now ends.now from to }
{
    let mut found = Places::Neither;
    let mut i = 0;
    while i < ends.len() {
        if to < ends[i] as u32 {
            break;
        }
        let last = block_last(found, starts, ends, i, from, to);
        found = step(
            found,
            NormalizedByte(last as u32),
            starts[last],
            ends[last],
            from,
        );
        i = last + 1;
    }
    found
}

// Rust: `expand_alignments`, of the alignments from `from` up to `to`: two reads.
fn expand_alignments(
    starts: &[Offset],
    ends: &[Offset],
    from: u32,
    to: u32,
) -> Result<Range, Refusal>
    requires { (OrderedColumns limit starts.now ends.now) × (from < to) }
    ensures { result ≡ expanded starts.now ends.now from to }
{
    let first = from as usize;
    let past = to as usize;
    if ends.len() < past {
        return Err(Refusal::Missing);
    }
    let start = OriginalByte(starts[first] as u32);
    let end = OriginalByte(ends[past - 1] as u32);
    Ok(Range::Original(start, end))
}

// A range of the cleaned text, in the transcript.
fn to_original(
    starts: &[Offset],
    ends: &[Offset],
    from: NormalizedByte,
    to: NormalizedByte,
) -> Result<Range, Refusal>
    requires { OrderedColumns limit starts.now ends.now }
    ensures { result ≡ to_original starts.now ends.now from to }
{
    let a = from.0;
    let b = to.0;
    if a == b {
        return Ok(Range::Original(same_in_original(from), same_in_original(to)));
    }
    if b < a {
        return Err(Refusal::Missing);
    }
    expand_alignments(starts, ends, a, b)
}

// A range of the transcript, in the cleaned text.
fn to_normalized(
    starts: &[Offset],
    ends: &[Offset],
    from: OriginalByte,
    to: OriginalByte,
) -> Result<Range, Refusal>
    requires { OrderedColumns limit starts.now ends.now }
    ensures { result ≡ to_normalized starts.now ends.now from to }
{
    let a = from.0;
    let b = to.0;
    if a == b {
        return Ok(Range::Normalized(same_in_normalized(from), same_in_normalized(to)));
    }
    if b < a {
        return Err(Refusal::Missing);
    }
    match walk(starts, ends, a, b) {
        Places::Both(first, last) => Ok(Range::Normalized(first, last)),
        Places::Last(last) => Ok(Range::Normalized(last, last)),
        Places::Neither => Err(Refusal::Missing),
    }
}

// `convert_offsets` for proved callers that have had the note checked: it asks for the columns that a check leaves.
// An inner function: the note was checked, so its columns are within the limit and never go back.
pub fn convert_checked(starts: &[Offset], ends: &[Offset], range: Range) -> Result<Range, Refusal>
    requires { OrderedColumns limit starts.now ends.now }
    ensures { result ≡ converted starts.now ends.now range }
{
    match range {
        Range::Normalized(from, to) => to_original(starts, ends, from, to),
        Range::Original(from, to) => to_normalized(starts, ends, from, to),
    }
}

// A range in the cleaned text, and one in the transcript: converted where it is of the other. Inner functions: they ask
// for the columns that a check leaves.
pub fn as_normalized(starts: &[Offset], ends: &[Offset], range: Range) -> Result<Range, Refusal>
    requires { OrderedColumns limit starts.now ends.now }
    ensures { result ≡ as_normalized starts.now ends.now range }
{
    match range {
        Range::Original(_, _) => convert_checked(starts, ends, range),
        Range::Normalized(_, _) => Ok(range),
    }
}

// A range in the transcript: one of the cleaned text is converted. An inner function: the note was checked.
pub fn as_original(starts: &[Offset], ends: &[Offset], range: Range) -> Result<Range, Refusal>
    requires { OrderedColumns limit starts.now ends.now }
    ensures { result ≡ as_original starts.now ends.now range }
{
    match range {
        Range::Original(_, _) => Ok(range),
        Range::Normalized(_, _) => convert_checked(starts, ends, range),
    }
}

// Rust: `convert_offsets`. Refusals: those of a note, then `Missing`.
pub fn convert_offsets(note: &NormalizedString, range: Range) -> Result<Range, Refusal>
    ensures { result ≡ convert_offsets limit
        (passed note.now) range }
{
    let NormalizedString { starts, ends, .. } = *note;
    check_note(note)?;
    convert_checked(starts, ends, range)
}
