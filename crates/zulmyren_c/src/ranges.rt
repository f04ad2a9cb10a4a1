// Ranges of one text in the other, and reading.
ghost use Rattle.std.specs.Prelude.{◌≡◌};
ghost use Rattle.note.specs.Notes.{lent, limit};
ghost use Rattle.note.specs.Refusals.{answer_of, verdict};
ghost use Rattle.convert.specs.Converting.{convert_offsets, range_of};
ghost use Rattle.get_range.specs.Reading.{get_range, get_range_original, part_faults};
ghost use Rattle.zulmyren.specs.Calls.{offsets_of, side_of};
ghost use Rattle.zulmyren.specs.Promised.{ConvertAllCall};

use buffers::Offset;
use note::NormalizedString;
use zulmyren::answers::Offsets;

#[unsafe(no_mangle)]
pub extern "C" fn zulmyren_convert_offsets(
    original: &[u8],
    normalized: &[u8],
    starts: &[Offset],
    ends: &[Offset],
    original_shift: u32,
    of_original: bool,
    start: u32,
    end: u32,
) -> Offsets
    ensures { result ≡ offsets_of (convert_offsets limit
        (lent original.now normalized.now
        starts.now ends.now original_shift)
        (range_of (side_of of_original) start end)) }
{
    zulmyren::ranges::zulmyren_convert_offsets(
        &NormalizedString {
            original,
            normalized,
            starts,
            ends,
            original_shift,
        },
        of_original,
        start,
        end,
    )
}

#[unsafe(no_mangle)]
pub extern "C" fn zulmyren_get_range(
    original: &[u8],
    normalized: &[u8],
    starts: &[Offset],
    ends: &[Offset],
    original_shift: u32,
    of_original: bool,
    start: u32,
    end: u32,
) -> Offsets
    ensures { result ≡ offsets_of (get_range limit
        (lent original.now normalized.now
        starts.now ends.now original_shift)
        (range_of (side_of of_original) start end)) }
{
    zulmyren::ranges::zulmyren_get_range(
        &NormalizedString {
            original,
            normalized,
            starts,
            ends,
            original_shift,
        },
        of_original,
        start,
        end,
    )
}

#[unsafe(no_mangle)]
pub extern "C" fn zulmyren_get_range_original(
    original: &[u8],
    normalized: &[u8],
    starts: &[Offset],
    ends: &[Offset],
    original_shift: u32,
    of_original: bool,
    start: u32,
    end: u32,
) -> Offsets
    ensures { result ≡ offsets_of (get_range_original limit
        (lent original.now normalized.now
        starts.now ends.now original_shift)
        (range_of (side_of of_original) start end)) }
{
    zulmyren::ranges::zulmyren_get_range_original(
        &NormalizedString {
            original,
            normalized,
            starts,
            ends,
            original_shift,
        },
        of_original,
        start,
        end,
    )
}

#[unsafe(no_mangle)]
pub extern "C" fn zulmyren_part_verdict<'a>(
    original: &'a [u8],
    normalized: &'a [u8],
    of_original: bool,
    start: u32,
    end: u32,
) -> u32
    ensures { result ≡ answer_of (verdict (part_faults limit original.now normalized.now
        (range_of (side_of of_original) start end))) }
{
    zulmyren::ranges::zulmyren_part_verdict(original, normalized, of_original, start, end)
}

#[unsafe(no_mangle)]
pub extern "C" fn zulmyren_convert_all(
    original: &[u8],
    normalized: &[u8],
    starts: &[Offset],
    ends: &[Offset],
    original_shift: u32,
    of_original: bool,
    from: &[u32],
    to: &[u32],
    numbers: &mut [u8],
    out_starts: &mut [u32],
    out_ends: &mut [u32],
) -> u32
    ensures { ConvertAllCall
        (lent original.now normalized.now
        starts.now ends.now original_shift)
        (side_of of_original) from.now to.now
        numbers.old out_starts.old out_ends.old
        result numbers.new out_starts.new out_ends.new }
{
    zulmyren::ranges::zulmyren_convert_all(
        &NormalizedString {
            original,
            normalized,
            starts,
            ends,
            original_shift,
        },
        of_original,
        from,
        to,
        numbers,
        out_starts,
        out_ends,
    )
}
