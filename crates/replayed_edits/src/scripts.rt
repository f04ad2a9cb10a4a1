// Edits by a script; the note's columns are read already, and the buffers filled.
ghost use Rattle.replayed_edits.specs.Replaying.{RangeCase, ScriptCase};

use buffers::Offset;
use note::NormalizedString;
use stored_answers::fields::{field, value};
use zulmyren::answers::Written;
use zulmyren::editing::{zulmyren_transform, zulmyren_transform_range};

// A note, a range, a script, an initial offset.
pub fn transform_range(
    case: &[u8],
    starts: &[Offset],
    ends: &[Offset],
    out: &mut [u8],
    out_starts: &mut [Offset],
    out_ends: &mut [Offset],
) -> Written
    ensures { RangeCase case.now starts.now ends.now
        out.old out_starts.old out_ends.old
        result out.new out_starts.new out_ends.new }
{
    zulmyren_transform_range(
        &NormalizedString {
            original: field(case, 0),
            normalized: field(case, 1),
            starts,
            ends,
            original_shift: value(case, 4),
        },
        value(case, 5) == 1,
        value(case, 6),
        value(case, 7),
        field(case, 8),
        value(case, 9),
        out,
        out_starts,
        out_ends,
    )
}

// A note, a script, an initial offset.
pub fn transform(
    case: &[u8],
    starts: &[Offset],
    ends: &[Offset],
    out: &mut [u8],
    out_starts: &mut [Offset],
    out_ends: &mut [Offset],
) -> Written
    ensures { ScriptCase case.now starts.now ends.now
        out.old out_starts.old out_ends.old
        result out.new out_starts.new out_ends.new }
{
    zulmyren_transform(
        &NormalizedString {
            original: field(case, 0),
            normalized: field(case, 1),
            starts,
            ends,
            original_shift: value(case, 4),
        },
        field(case, 5),
        value(case, 6),
        out,
        out_starts,
        out_ends,
    )
}
