// Slicing (RULES 6; Rust: `validate_range`, `slice`): the part of a note that a range of either text names.
#![tactic(auto)]

ghost use Rattle.std.specs.Prelude.{◌≡◌, cond, Ok, Err};
ghost use Rattle.buffers.specs.Splice.{splice};
ghost use Rattle.note.specs.Notes.{limit, passed};
ghost use Rattle.note.specs.declared.Refusal.TheVariants.{Missing};
ghost use Rattle.slice.specs.Slicing.{Slicing, lowered, slice_of, unplaced, valid_range};
ghost use Rattle.slice.specs.Writing.{Lowerable, Shiftable, SliceJudged};

use buffers::Offset;
use checks::{check_note, least_of_two};
use convert::{Range, as_normalized, as_original, end_of, start_of};
use note::{NormalizedByte, NormalizedString, OriginalByte, Refusal};
use utf8::is_char_boundary;

// A slice of a note: which bytes of the transcript and which of the cleaned text it has, and its own shift.
#[derive(Clone, Copy)]
pub struct NoteSlice {
    pub original_start: OriginalByte,
    pub original_end: OriginalByte,
    pub normalized_start: NormalizedByte,
    pub normalized_end: NormalizedByte,
    pub original_shift: u32,
}

// Whether both ends of the range are boundaries of the text that it names.
pub fn validate_range(original: &[u8], normalized: &[u8], range: Range) -> bool
    ensures { result ≡ valid_range original.now normalized.now range }
{
    let from = start_of(range) as usize;
    let to = end_of(range) as usize;
    match range {
        Range::Original(_, _) => is_char_boundary(original, from) & is_char_boundary(original, to),
        Range::Normalized(_, _) => {
            is_char_boundary(normalized, from) & is_char_boundary(normalized, to)
        }
    }
}

// The slice of a range, by the range in each text; or `Missing`. An inner function: the shift and the range were judged
// before.
fn slice_of(
    in_original: Result<Range, Refusal>,
    in_normalized: Result<Range, Refusal>,
    shift: u32,
    size: usize,
) -> Result<NoteSlice, Refusal>
    requires { Shiftable limit in_original shift }
    ensures { result ≡ cond (unplaced in_original in_normalized size) (Err Missing)
        (Ok (slice_of in_original in_normalized shift)) }
{
    let Ok(o) = in_original else {
        return Err(Refusal::Missing);
    };
    let Ok(n) = in_normalized else {
        return Err(Refusal::Missing);
    };
    if size < end_of(n) as usize {
        return Err(Refusal::Missing);
    }
    Ok(NoteSlice {
        original_start: OriginalByte(start_of(o)),
        original_end: OriginalByte(end_of(o)),
        normalized_start: NormalizedByte(start_of(n)),
        normalized_end: NormalizedByte(end_of(n)),
        original_shift: shift + start_of(o),
    })
}

// What `slice` says of a note and a range beside the room that is passed.
fn check_slice(note: &NormalizedString, range: Range, room: usize) -> Result<NoteSlice, Refusal>
    ensures { SliceJudged limit
        (passed note.now) range room result }
{
    let NormalizedString {
        original,
        normalized,
        starts,
        ends,
        original_shift,
    } = *note;
    check_note(note)?;
    if !validate_range(original, normalized, range) {
        return Err(Refusal::NotBoundary);
    }
    let in_original = as_original(starts, ends, range);
    let in_normalized = as_normalized(starts, ends, range);
    let s = slice_of(in_original, in_normalized, original_shift, normalized.len())?;
    let from = s.normalized_start;
    let to = s.normalized_end;
    if room < (to.0 - from.0) as usize {
        return Err(Refusal::NoRoom);
    }
    Ok(s)
}

// The numbers of `column`, each less `base`, stand in `out` from `at` on; all else is as it was. An inner function: the
// callers have measured the room, and no number is below the base.
pub fn write_lowered(column: &[Offset], base: Offset, out: &mut [Offset], at: usize)
    requires { Lowerable column.now base out.old at }
    ensures { out.new ≡ splice out.old at (lowered base column.now) }
{
    for (j, x) in column.iter().enumerate() {
        out[at + j] = *x - base;
    }
}

// The part of a note that a range names, as a note of its own: it answers the slice and writes its alignments.
// Refusals: those of a note, then `NotBoundary`, `Missing`, `NoRoom`.
pub fn slice(
    note: &NormalizedString,
    range: Range,
    out_starts: &mut [Offset],
    out_ends: &mut [Offset],
) -> Result<NoteSlice, Refusal>
    ensures { Slicing limit
        (passed note.now) range
        out_starts.old out_ends.old
        result out_starts.new out_ends.new }
{
    let NormalizedString { starts, ends, .. } = *note;
    let room = least_of_two(out_starts.len(), out_ends.len());
    let s = check_slice(note, range, room)?;
    let base = s.original_start;
    let first = s.normalized_start;
    let past = s.normalized_end;
    let from = first.0 as usize;
    let to = past.0 as usize;
    write_lowered(&starts[from..to], base.0 as Offset, out_starts, 0);
    write_lowered(&ends[from..to], base.0 as Offset, out_ends, 0);
    Ok(s)
}
