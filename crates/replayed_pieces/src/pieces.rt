// Splitting a note, and split offsets; the note's columns are read already. After the note: a list, a behaviour.
ghost use Rattle.note.specs.Notes.{limit};
ghost use Rattle.split.specs.Splitting.{columns};
ghost use Rattle.stored_answers.specs.Framing.{field_of};
ghost use Rattle.stored_answers.specs.Differences.{numbers_of, offset_column};
ghost use Rattle.replayed_pieces.specs.Replaying.{SplitReplayed, SplitsReplayed};

use crate::told::{are_pieces, are_splits};
use buffers::Offset;
use note::NormalizedString;
use stored_answers::columns::{FEW, are_offsets, numbers, offsets, zeros};
use stored_answers::fields::{field, value};
use zulmyren::slices::{zulmyren_get_splits, zulmyren_split};

fn cut(
    case: &[u8],
    starts: &[Offset],
    ends: &[Offset],
    piece_starts: &mut [Offset],
    piece_ends: &mut [Offset],
    shifts: &mut [u32],
    lengths: &mut [Offset],
    out_starts: &mut [Offset],
    out_ends: &mut [Offset],
) -> bool
    ensures { SplitReplayed case.now starts.now ends.now
        (columns piece_starts.old piece_ends.old shifts.old
        lengths.old out_starts.old out_ends.old) result }
{
    let answer = zulmyren_split(
        &NormalizedString {
            original: field(case, 0),
            normalized: field(case, 1),
            starts,
            ends,
            original_shift: value(case, 4),
        },
        field(case, 5),
        value(case, 6),
        value(case, 7) == 1,
        piece_starts,
        piece_ends,
        shifts,
        lengths,
        out_starts,
        out_ends,
    );
    are_pieces(case, 14, answer, piece_starts, piece_ends, shifts, lengths)
        & are_offsets(case, 21, out_starts)
        & are_offsets(case, 22, out_ends)
}

// The passed alignments, beside the columns of the pieces.
fn cut_beside(
    case: &[u8],
    starts: &[Offset],
    ends: &[Offset],
    piece_starts: &mut [Offset],
    piece_ends: &mut [Offset],
    shifts: &mut [u32],
    lengths: &mut [Offset],
) -> bool
    ensures { SplitReplayed case.now starts.now ends.now
        (columns piece_starts.old piece_ends.old shifts.old
        lengths.old (offset_column limit (field_of 12 case.now))
        (offset_column limit (field_of 13 case.now))) result }
{
    let mut out_starts = zeros();
    let mut out_ends = zeros();
    let s = offsets(case, 12, &mut out_starts);
    let e = offsets(case, 13, &mut out_ends);
    cut(
        case,
        starts,
        ends,
        piece_starts,
        piece_ends,
        shifts,
        lengths,
        &mut out_starts[..s],
        &mut out_ends[..e],
    )
}

// The passed shifts and lengths, beside the pieces' starts and ends.
fn cut_spans(
    case: &[u8],
    starts: &[Offset],
    ends: &[Offset],
    piece_starts: &mut [Offset],
    piece_ends: &mut [Offset],
) -> bool
    ensures { SplitReplayed case.now starts.now ends.now
        (columns piece_starts.old piece_ends.old
        (numbers_of (field_of 10 case.now)) (offset_column limit (field_of 11 case.now))
        (offset_column limit (field_of 12 case.now)) (offset_column limit (field_of 13 case.now))) result }
{
    let mut shifts = [0; FEW];
    let mut lengths = zeros();
    let s = numbers(case, 10, &mut shifts);
    let l = offsets(case, 11, &mut lengths);
    cut_beside(
        case,
        starts,
        ends,
        piece_starts,
        piece_ends,
        &mut shifts[..s],
        &mut lengths[..l],
    )
}

// 1 where empty pieces are dropped, the six passed columns; the refusal, how many pieces, how many alignments, the
// columns.
pub fn split(case: &[u8], starts: &[Offset], ends: &[Offset]) -> bool
    ensures { SplitReplayed case.now starts.now ends.now
        (columns (offset_column limit (field_of 8 case.now)) (offset_column limit (field_of 9 case.now))
        (numbers_of (field_of 10 case.now)) (offset_column limit (field_of 11 case.now))
        (offset_column limit (field_of 12 case.now)) (offset_column limit (field_of 13 case.now))) result }
{
    let mut piece_starts = zeros();
    let mut piece_ends = zeros();
    let s = offsets(case, 8, &mut piece_starts);
    let e = offsets(case, 9, &mut piece_ends);
    cut_spans(
        case,
        starts,
        ends,
        &mut piece_starts[..s],
        &mut piece_ends[..e],
    )
}

fn listed(
    case: &[u8],
    starts: &[Offset],
    ends: &[Offset],
    out_starts: &mut [u32],
    out_ends: &mut [u32],
) -> bool
    ensures { SplitsReplayed case.now starts.now ends.now
        out_starts.old out_ends.old result }
{
    let answer = zulmyren_get_splits(
        &NormalizedString {
            original: field(case, 0),
            normalized: field(case, 1),
            starts,
            ends,
            original_shift: value(case, 4),
        },
        field(case, 5),
        value(case, 6),
        value(case, 7) == 1,
        value(case, 8) == 1,
        out_starts,
        out_ends,
    );
    are_splits(case, 11, answer, out_starts, out_ends)
}

// 1 for the transcript, 1 for characters, the passed starts and ends; the refusal, how many there are, the two columns.
pub fn get_splits(case: &[u8], starts: &[Offset], ends: &[Offset]) -> bool
    ensures { SplitsReplayed case.now starts.now ends.now
        (numbers_of (field_of 9 case.now)) (numbers_of (field_of 10 case.now)) result }
{
    let mut out_starts = [0; FEW];
    let mut out_ends = [0; FEW];
    let s = numbers(case, 9, &mut out_starts);
    let e = numbers(case, 10, &mut out_ends);
    listed(case, starts, ends, &mut out_starts[..s], &mut out_ends[..e])
}
