// Splitting (RULES 11; Rust: `NormalizedString::split`, `PreTokenizedString::split`): a note cut into pieces by a match
// list, each piece the slice of its cleaned range.
#![tactic(auto)]

ghost use Rattle.std.specs.Prelude.{◌≡◌, true, ◌+◌, ◌^◌, ◌≤◌, ◌<◌, length};
ghost use Rattle.buffers.specs.Over.{Over};
ghost use Rattle.buffers.specs.Splice.{part, splice};
ghost use Rattle.note.specs.Notes.{limit, passed};
ghost use Rattle.note.specs.Refusals.{verdict, Accepted};
ghost use Rattle.slice.specs.Slicing.{lowered};
ghost use Rattle.split.specs.PieceSlices.{bytes_before};
ghost use Rattle.split.specs.Splitting.{alignment_room, columns, piece_room, split_faults, Splitting};
ghost use Rattle.split.specs.Writing.{BlockFits, LoweredBlockRoom, BothRoom, ColumnsLaid, ColumnsRoom, Countable};
ghost use Rattle.split.specs.Writing.{CutInto, from_start, RangeInside, to_end};

use behaviors::{EmptyPieces, SplitDelimiterBehavior, measure};
use buffers::{Offset, copy};
use checks::{check_note, least_of_two};
use note::{NormalizedString, Refusal};
use pattern::{covers, most_places};
use slice::write_lowered;
use spans::write_spans;

// Where the transcript of the cleaned bytes from..to starts. An inner function, as the next one: the bytes are there.
fn original_start(starts: &[Offset], from: Offset, to: Offset) -> Offset
    requires { RangeInside (length starts.now) from to }
    ensures { result ≡ from_start starts.now from to }
{
    if from == to {
        return from;
    }
    starts[from as usize]
}

// Where it ends.
fn original_end(ends: &[Offset], from: Offset, to: Offset) -> Offset
    requires { RangeInside (length ends.now) from to }
    ensures { result ≡ to_end ends.now from to }
{
    if from == to {
        return to;
    }
    ends[to as usize - 1]
}

// How many bytes the pieces from..to have together.
fn byte_count(from: &[Offset], to: &[Offset]) -> usize
    requires { Countable limit from.now to.now }
    ensures { result ≡ bytes_before from.now to.now (length from.now) }
{
    let mut sum: u32 = 0;
    for k in 0..from.len() {
        sum += (to[k] - from[k]) as u32;
    }
    sum as usize
}

// The 16 numbers of `column` from `i` on, each less `base`, stand in `out` from `at` on: through a local array, so that
// source and destination are not tested for an overlap.
fn lower_block(column: &[Offset], i: usize, base: Offset, out: &mut [Offset], at: usize)
    requires { LoweredBlockRoom column.now i base out.old at }
    ensures { out.new ≡ splice out.old at
        (lowered base (part column.now i (i + 16))) }
{
    let mut block = [0u16; 16];
    write_lowered(&column[i..i + 16], base, &mut block, 0);
    copy(&block, out, at);
}

// Whether the piece from..to of a text of `size` bytes has some, and can be laid as the front of a block: the text has
// 16 bytes from there on, and the block stays below `until`.
fn has_block(from: usize, to: usize, size: usize, at: usize, until: usize) -> bool
    requires { (from ≤ size) × (at + 16 < 2 ^ 64) }
    ensures { result ≡ true → BlockFits from to size at until }
{
    if to <= from {
        return false;
    }
    if 16 < to - from {
        return false;
    }
    if size - from < 16 {
        return false;
    }
    at + 16 <= until
}

// The alignments of the piece from..to, each less `base`, stand in the two columns from `at` on. Those of a short piece
// are laid as the front of a block, so that no loop's number of turns is its length; what the block has after them
// stays below `until`.
fn lower_piece(
    starts: &[Offset],
    ends: &[Offset],
    from: usize,
    to: usize,
    base: Offset,
    out_starts: &mut [Offset],
    out_ends: &mut [Offset],
    at: usize,
    until: usize,
)
    requires { BothRoom starts.now ends.now from to base out_starts.old out_ends.old at until }
    ensures { Over (lowered base (part starts.now from to)) out_starts.old at until
        out_starts.new
        × Over (lowered base (part ends.now from to)) out_ends.old at until
        out_ends.new }
{
    if has_block(from, to, starts.len(), at, until) {
        lower_block(starts, from, base, out_starts, at);
        lower_block(ends, from, base, out_ends, at);
        return;
    }
    write_lowered(&starts[from..to], base, out_starts, at);
    write_lowered(&ends[from..to], base, out_ends, at);
}

// For each piece from..to its shift, its transcript's length, and its alignments, each less where its transcript
// starts. The alignments of all pieces are `until`.
fn write_columns(
    starts: &[Offset],
    ends: &[Offset],
    from: &[Offset],
    to: &[Offset],
    shift: u32,
    until: usize,
    shifts: &mut [u32],
    lengths: &mut [Offset],
    out_starts: &mut [Offset],
    out_ends: &mut [Offset],
)
    requires { ColumnsRoom limit starts.now ends.now from.now to.now shift until
        shifts.old lengths.old out_starts.old out_ends.old }
    ensures { ColumnsLaid starts.now ends.now from.now to.now shift
        shifts.old lengths.old out_starts.old out_ends.old
        shifts.new lengths.new out_starts.new out_ends.new }
{
    let mut at = 0;
    for k in 0..from.len() {
        let first = from[k];
        let past = to[k];
        let start = original_start(starts, first, past);
        let end = original_end(ends, first, past);
        shifts[k] = shift + start as u32;
        lengths[k] = end - start;
        let a = first as usize;
        let b = past as usize;
        lower_piece(starts, ends, a, b, start, out_starts, out_ends, at, until);
        at += b - a;
    }
}

// What `split` says of a note and a list beside the room that is passed for pieces and for their alignments.
fn check_split(
    note: &NormalizedString,
    list: &[u8],
    behavior: SplitDelimiterBehavior,
    empty: EmptyPieces,
    for_pieces: usize,
    for_alignments: usize,
) -> Result<(), Refusal>
    ensures { result ≡ verdict (split_faults limit
        (passed note.now)
        list.now behavior empty for_pieces for_alignments) }
{
    check_note(note)?;
    if !covers(note.normalized, list) {
        return Err(Refusal::BadMatches);
    }
    if most_places(list) <= for_pieces {
        if note.normalized.len() <= for_alignments {
            return Ok(());
        }
    }
    let sizes = measure(list, behavior, empty);
    if for_pieces < sizes.pieces {
        return Err(Refusal::NoRoom);
    }
    if for_alignments < sizes.bytes {
        return Err(Refusal::NoRoom);
    }
    Ok(())
}

// The pieces of an accepted note, in front of the six columns.
fn write_pieces(
    note: &NormalizedString,
    list: &[u8],
    behavior: SplitDelimiterBehavior,
    empty: EmptyPieces,
    piece_starts: &mut [Offset],
    piece_ends: &mut [Offset],
    piece_shifts: &mut [u32],
    piece_lengths: &mut [Offset],
    out_starts: &mut [Offset],
    out_ends: &mut [Offset],
) -> Result<(usize, usize), Refusal>
    requires { verdict (split_faults limit
        (passed note.now)
        list.now behavior empty
        (piece_room (columns piece_starts.old piece_ends.old piece_shifts.old piece_lengths.old
        out_starts.old out_ends.old))
        (alignment_room (columns piece_starts.old piece_ends.old piece_shifts.old piece_lengths.old
        out_starts.old out_ends.old))) ≡ Accepted }
    ensures { CutInto
        (passed note.now) list.now behavior empty
        (columns piece_starts.old piece_ends.old piece_shifts.old
        piece_lengths.old out_starts.old out_ends.old)
        result
        (columns piece_starts.new piece_ends.new piece_shifts.new
        piece_lengths.new out_starts.new out_ends.new) }
{
    let NormalizedString {
        starts,
        ends,
        original_shift,
        ..
    } = *note;
    let count = write_spans(
        list,
        behavior,
        empty,
        piece_shifts,
        piece_starts,
        piece_ends,
    );
    let from = &piece_starts[..count];
    let to = &piece_ends[..count];
    let alignments = byte_count(from, to);
    write_columns(
        starts,
        ends,
        from,
        to,
        original_shift,
        alignments,
        piece_shifts,
        piece_lengths,
        out_starts,
        out_ends,
    );
    Ok((count, alignments))
}

// The note cut into pieces: their cleaned starts and ends, their shifts and transcript lengths stand in front of the
// four columns for pieces, and their alignments, end to end, in front of the last two.
pub fn split(
    note: &NormalizedString,
    list: &[u8],
    behavior: SplitDelimiterBehavior,
    empty: EmptyPieces,
    piece_starts: &mut [Offset],
    piece_ends: &mut [Offset],
    piece_shifts: &mut [u32],
    piece_lengths: &mut [Offset],
    out_starts: &mut [Offset],
    out_ends: &mut [Offset],
) -> Result<(usize, usize), Refusal>
    ensures { Splitting limit
        (passed note.now) list.now behavior empty
        (columns piece_starts.old piece_ends.old piece_shifts.old
        piece_lengths.old out_starts.old out_ends.old)
        result
        (columns piece_starts.new piece_ends.new piece_shifts.new
        piece_lengths.new out_starts.new out_ends.new) }
{
    let spans = least_of_two(piece_starts.len(), piece_ends.len());
    let numbers = least_of_two(piece_shifts.len(), piece_lengths.len());
    let for_pieces = least_of_two(spans, numbers);
    let for_alignments = least_of_two(out_starts.len(), out_ends.len());
    check_split(note, list, behavior, empty, for_pieces, for_alignments)?;
    write_pieces(
        note,
        list,
        behavior,
        empty,
        piece_starts,
        piece_ends,
        piece_shifts,
        piece_lengths,
        out_starts,
        out_ends,
    )
}
