// Edits of a whole note; its columns are read already, and the buffers filled.
ghost use Rattle.stored_answers.specs.Lending.{note_at};
ghost use Rattle.zulmyren.specs.Edits.{ClearTold};
ghost use Rattle.replayed_edits.specs.Replaying.{AppendCase, FilterCase, LowercaseCase, MapCase, PrependCase, Replayed, clear_stored};

use crate::told::is_cleared;
use buffers::Offset;
use note::NormalizedString;
use stored_answers::columns::{FEW, numbers};
use stored_answers::fields::{field, value};
use zulmyren::answers::Written;
use zulmyren::editing::{
    zulmyren_append, zulmyren_clear, zulmyren_filter, zulmyren_lowercase, zulmyren_map,
    zulmyren_prepend,
};

// A note, code points.
pub fn map(
    case: &[u8],
    starts: &[Offset],
    ends: &[Offset],
    out: &mut [u8],
    out_starts: &mut [Offset],
    out_ends: &mut [Offset],
) -> Written
    ensures { MapCase case.now starts.now ends.now
        out.old out_starts.old out_ends.old
        result out.new out_starts.new out_ends.new }
{
    let mut codes = [0; FEW];
    let n = numbers(case, 5, &mut codes);
    zulmyren_map(
        &NormalizedString {
            original: field(case, 0),
            normalized: field(case, 1),
            starts,
            ends,
            original_shift: value(case, 4),
        },
        &codes[..n],
        out,
        out_starts,
        out_ends,
    )
}

// A note.
pub fn lowercase(
    case: &[u8],
    starts: &[Offset],
    ends: &[Offset],
    out: &mut [u8],
    out_starts: &mut [Offset],
    out_ends: &mut [Offset],
) -> Written
    ensures { LowercaseCase case.now starts.now ends.now
        out.old out_starts.old out_ends.old
        result out.new out_starts.new out_ends.new }
{
    zulmyren_lowercase(
        &NormalizedString {
            original: field(case, 0),
            normalized: field(case, 1),
            starts,
            ends,
            original_shift: value(case, 4),
        },
        out,
        out_starts,
        out_ends,
    )
}

// A note, flags.
pub fn filter(
    case: &[u8],
    starts: &[Offset],
    ends: &[Offset],
    out: &mut [u8],
    out_starts: &mut [Offset],
    out_ends: &mut [Offset],
) -> Written
    ensures { FilterCase case.now starts.now ends.now
        out.old out_starts.old out_ends.old
        result out.new out_starts.new out_ends.new }
{
    let flags = field(case, 5);
    zulmyren_filter(
        &NormalizedString {
            original: field(case, 0),
            normalized: field(case, 1),
            starts,
            ends,
            original_shift: value(case, 4),
        },
        flags,
        out,
        out_starts,
        out_ends,
    )
}

// A note, a string.
pub fn append(
    case: &[u8],
    starts: &[Offset],
    ends: &[Offset],
    out: &mut [u8],
    out_starts: &mut [Offset],
    out_ends: &mut [Offset],
) -> Written
    ensures { AppendCase case.now starts.now ends.now
        out.old out_starts.old out_ends.old
        result out.new out_starts.new out_ends.new }
{
    let appended = field(case, 5);
    zulmyren_append(
        &NormalizedString {
            original: field(case, 0),
            normalized: field(case, 1),
            starts,
            ends,
            original_shift: value(case, 4),
        },
        appended,
        out,
        out_starts,
        out_ends,
    )
}

// A note, a string.
pub fn prepend(
    case: &[u8],
    starts: &[Offset],
    ends: &[Offset],
    out: &mut [u8],
    out_starts: &mut [Offset],
    out_ends: &mut [Offset],
) -> Written
    ensures { PrependCase case.now starts.now ends.now
        out.old out_starts.old out_ends.old
        result out.new out_starts.new out_ends.new }
{
    let prepended = field(case, 5);
    zulmyren_prepend(
        &NormalizedString {
            original: field(case, 0),
            normalized: field(case, 1),
            starts,
            ends,
            original_shift: value(case, 4),
        },
        prepended,
        out,
        out_starts,
        out_ends,
    )
}

// A note; the refusal, how long the text was and is, the buffers.
pub fn clear(
    case: &[u8],
    starts: &[Offset],
    ends: &[Offset],
    out: &mut [u8],
    out_starts: &mut [Offset],
    out_ends: &mut [Offset],
) -> bool
    ensures { Replayed
        (ClearTold (note_at case.now starts.now ends.now)
        out.old out_starts.old out_ends.old)
        (clear_stored case.now 8) result }
{
    let answer = zulmyren_clear(
        &NormalizedString {
            original: field(case, 0),
            normalized: field(case, 1),
            starts,
            ends,
            original_shift: value(case, 4),
        },
        out,
        out_starts,
        out_ends,
    );
    is_cleared(case, 8, answer, out, out_starts, out_ends)
}
