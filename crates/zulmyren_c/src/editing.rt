// Editing: scripts, and the edits of a whole note.
ghost use Rattle.note.specs.Notes.{lent};
ghost use Rattle.convert.specs.Converting.{range_of};
ghost use Rattle.transform.specs.Transforming.{whole_original};
ghost use Rattle.zulmyren.specs.Calls.{side_of};
ghost use Rattle.zulmyren.specs.Edits.{AppendTold, ClearTold, FilterTold, LowercaseTold, MapTold};
ghost use Rattle.zulmyren.specs.Edits.{PrependTold, TransformTold};

use buffers::Offset;
use note::NormalizedString;
use zulmyren::answers::{Lengths, Written};

#[unsafe(no_mangle)]
pub extern "C" fn zulmyren_transform_range(
    original: &[u8],
    normalized: &[u8],
    starts: &[Offset],
    ends: &[Offset],
    original_shift: u32,
    of_original: bool,
    start: u32,
    end: u32,
    script: &[u8],
    initial_offset: u32,
    out: &mut [u8],
    out_starts: &mut [Offset],
    out_ends: &mut [Offset],
) -> Written
    ensures { TransformTold
        (lent original.now normalized.now starts.now ends.now
        original_shift)
        (range_of (side_of of_original) start end) script.now initial_offset
        out.old out_starts.old out_ends.old
        result out.new out_starts.new out_ends.new }
{
    zulmyren::editing::zulmyren_transform_range(
        &NormalizedString {
            original,
            normalized,
            starts,
            ends,
            original_shift,
        },
        of_original,
        start,
        end,
        script,
        initial_offset,
        out,
        out_starts,
        out_ends,
    )
}

#[unsafe(no_mangle)]
pub extern "C" fn zulmyren_transform(
    original: &[u8],
    normalized: &[u8],
    starts: &[Offset],
    ends: &[Offset],
    original_shift: u32,
    script: &[u8],
    initial_offset: u32,
    out: &mut [u8],
    out_starts: &mut [Offset],
    out_ends: &mut [Offset],
) -> Written
    ensures { TransformTold
        (lent original.now normalized.now starts.now ends.now
        original_shift)
        (whole_original original.now) script.now initial_offset
        out.old out_starts.old out_ends.old
        result out.new out_starts.new out_ends.new }
{
    zulmyren::editing::zulmyren_transform(
        &NormalizedString {
            original,
            normalized,
            starts,
            ends,
            original_shift,
        },
        script,
        initial_offset,
        out,
        out_starts,
        out_ends,
    )
}

#[unsafe(no_mangle)]
pub extern "C" fn zulmyren_map(
    original: &[u8],
    normalized: &[u8],
    starts: &[Offset],
    ends: &[Offset],
    original_shift: u32,
    codes: &[u32],
    out: &mut [u8],
    out_starts: &mut [Offset],
    out_ends: &mut [Offset],
) -> Written
    ensures { MapTold
        (lent original.now normalized.now starts.now ends.now
        original_shift) codes.now
        out.old out_starts.old out_ends.old
        result out.new out_starts.new out_ends.new }
{
    zulmyren::editing::zulmyren_map(
        &NormalizedString {
            original,
            normalized,
            starts,
            ends,
            original_shift,
        },
        codes,
        out,
        out_starts,
        out_ends,
    )
}

#[unsafe(no_mangle)]
pub extern "C" fn zulmyren_lowercase(
    original: &[u8],
    normalized: &[u8],
    starts: &[Offset],
    ends: &[Offset],
    original_shift: u32,
    out: &mut [u8],
    out_starts: &mut [Offset],
    out_ends: &mut [Offset],
) -> Written
    ensures { LowercaseTold
        (lent original.now normalized.now starts.now ends.now
        original_shift)
        out.old out_starts.old out_ends.old
        result out.new out_starts.new out_ends.new }
{
    zulmyren::editing::zulmyren_lowercase(
        &NormalizedString {
            original,
            normalized,
            starts,
            ends,
            original_shift,
        },
        out,
        out_starts,
        out_ends,
    )
}

#[unsafe(no_mangle)]
pub extern "C" fn zulmyren_filter(
    original: &[u8],
    normalized: &[u8],
    starts: &[Offset],
    ends: &[Offset],
    original_shift: u32,
    flags: &[u8],
    out: &mut [u8],
    out_starts: &mut [Offset],
    out_ends: &mut [Offset],
) -> Written
    ensures { FilterTold
        (lent original.now normalized.now starts.now ends.now
        original_shift) flags.now
        out.old out_starts.old out_ends.old
        result out.new out_starts.new out_ends.new }
{
    zulmyren::editing::zulmyren_filter(
        &NormalizedString {
            original,
            normalized,
            starts,
            ends,
            original_shift,
        },
        flags,
        out,
        out_starts,
        out_ends,
    )
}

#[unsafe(no_mangle)]
pub extern "C" fn zulmyren_append(
    original: &[u8],
    normalized: &[u8],
    starts: &[Offset],
    ends: &[Offset],
    original_shift: u32,
    string: &[u8],
    out: &mut [u8],
    out_starts: &mut [Offset],
    out_ends: &mut [Offset],
) -> Written
    ensures { AppendTold
        (lent original.now normalized.now starts.now ends.now
        original_shift) string.now
        out.old out_starts.old out_ends.old
        result out.new out_starts.new out_ends.new }
{
    zulmyren::editing::zulmyren_append(
        &NormalizedString {
            original,
            normalized,
            starts,
            ends,
            original_shift,
        },
        string,
        out,
        out_starts,
        out_ends,
    )
}

#[unsafe(no_mangle)]
pub extern "C" fn zulmyren_prepend(
    original: &[u8],
    normalized: &[u8],
    starts: &[Offset],
    ends: &[Offset],
    original_shift: u32,
    string: &[u8],
    out: &mut [u8],
    out_starts: &mut [Offset],
    out_ends: &mut [Offset],
) -> Written
    ensures { PrependTold
        (lent original.now normalized.now starts.now ends.now
        original_shift) string.now
        out.old out_starts.old out_ends.old
        result out.new out_starts.new out_ends.new }
{
    zulmyren::editing::zulmyren_prepend(
        &NormalizedString {
            original,
            normalized,
            starts,
            ends,
            original_shift,
        },
        string,
        out,
        out_starts,
        out_ends,
    )
}

#[unsafe(no_mangle)]
pub extern "C" fn zulmyren_clear(
    original: &[u8],
    normalized: &[u8],
    starts: &[Offset],
    ends: &[Offset],
    original_shift: u32,
    out: &mut [u8],
    out_starts: &mut [Offset],
    out_ends: &mut [Offset],
) -> Lengths
    ensures { ClearTold
        (lent original.now normalized.now starts.now ends.now
        original_shift)
        out.old out_starts.old out_ends.old
        result out.new out_starts.new out_ends.new }
{
    zulmyren::editing::zulmyren_clear(
        &NormalizedString {
            original,
            normalized,
            starts,
            ends,
            original_shift,
        },
        out,
        out_starts,
        out_ends,
    )
}
