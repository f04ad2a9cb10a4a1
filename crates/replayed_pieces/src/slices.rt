// Slicing a note, whose columns are read already.
ghost use Rattle.note.specs.Notes.{limit};
ghost use Rattle.stored_answers.specs.Framing.{field_of};
ghost use Rattle.stored_answers.specs.Differences.{offset_column};
ghost use Rattle.replayed_pieces.specs.Replaying.{SliceReplayed};

use crate::told::is_slice;
use buffers::Offset;
use note::NormalizedString;
use stored_answers::columns::{are_offsets, offsets, zeros};
use stored_answers::fields::{field, value};
use zulmyren::slices::zulmyren_slice;

fn sliced(
    case: &[u8],
    starts: &[Offset],
    ends: &[Offset],
    out_starts: &mut [Offset],
    out_ends: &mut [Offset],
) -> bool
    ensures { SliceReplayed case.now starts.now ends.now
        out_starts.old out_ends.old result }
{
    let answer = zulmyren_slice(
        &NormalizedString {
            original: field(case, 0),
            normalized: field(case, 1),
            starts,
            ends,
            original_shift: value(case, 4),
        },
        value(case, 5) == 1,
        value(case, 6),
        value(case, 7),
        out_starts,
        out_ends,
    );
    is_slice(case, 10, answer) & are_offsets(case, 16, out_starts) & are_offsets(case, 17, out_ends)
}

// A note, a range, room for starts and ends; the refusal, the two ranges, the shift, the two columns.
pub fn slice(case: &[u8], starts: &[Offset], ends: &[Offset]) -> bool
    ensures { SliceReplayed case.now starts.now ends.now
        (offset_column limit (field_of 8 case.now)) (offset_column limit (field_of 9 case.now)) result }
{
    let mut out_starts = zeros();
    let mut out_ends = zeros();
    let s = offsets(case, 8, &mut out_starts);
    let e = offsets(case, 9, &mut out_ends);
    sliced(case, starts, ends, &mut out_starts[..s], &mut out_ends[..e])
}
