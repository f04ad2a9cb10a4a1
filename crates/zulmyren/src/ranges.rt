// Ranges of one text in the other, and reading.
ghost use Rattle.std.specs.Prelude.{◌≡◌};
ghost use Rattle.note.specs.Notes.{limit, passed};
ghost use Rattle.note.specs.Refusals.{answer_of, verdict};
ghost use Rattle.convert.specs.Converting.{convert_offsets, range_of};
ghost use Rattle.get_range.specs.Reading.{get_range, get_range_original, part_faults};
ghost use Rattle.zulmyren.specs.Calls.{offsets_of, side_of};
ghost use Rattle.zulmyren.specs.Promised.{ConvertAllCall};

use crate::answers::Offsets;
use buffers::Offset;
use convert::{OffsetReferential, range_of};
use note::NormalizedString;

// The text that a range is in.
pub fn side_of(original: bool) -> OffsetReferential
    ensures { result ≡ side_of original }
{
    if original {
        return OffsetReferential::Original;
    }
    OffsetReferential::Normalized
}

pub fn zulmyren_convert_offsets(
    note: &NormalizedString,
    of_original: bool,
    start: u32,
    end: u32,
) -> Offsets
    ensures { result ≡ offsets_of (convert_offsets limit
        (passed note.now)
        (range_of (side_of of_original) start end)) }
{
    let range = range_of(side_of(of_original), start, end);
    Offsets::from(convert::convert_offsets(note, range))
}

pub fn zulmyren_get_range(
    note: &NormalizedString,
    of_original: bool,
    start: u32,
    end: u32,
) -> Offsets
    ensures { result ≡ offsets_of (get_range limit
        (passed note.now)
        (range_of (side_of of_original) start end)) }
{
    let range = range_of(side_of(of_original), start, end);
    Offsets::from(get_range::get_range(note, range))
}

pub fn zulmyren_get_range_original(
    note: &NormalizedString,
    of_original: bool,
    start: u32,
    end: u32,
) -> Offsets
    ensures { result ≡ offsets_of (get_range_original limit
        (passed note.now)
        (range_of (side_of of_original) start end)) }
{
    let range = range_of(side_of(of_original), start, end);
    Offsets::from(get_range::get_range_original(note, range))
}

pub fn zulmyren_part_verdict<'a>(
    original: &'a [u8],
    normalized: &'a [u8],
    of_original: bool,
    start: u32,
    end: u32,
) -> u32
    ensures { result ≡ answer_of (verdict (part_faults limit original.now normalized.now
        (range_of (side_of of_original) start end))) }
{
    let range = range_of(side_of(of_original), start, end);
    note::verdicts::answer(get_range::part_verdict(original, normalized, range))
}

pub fn zulmyren_convert_all(
    note: &NormalizedString,
    of_original: bool,
    from: &[u32],
    to: &[u32],
    numbers: &mut [u8],
    out_starts: &mut [u32],
    out_ends: &mut [u32],
) -> u32
    ensures { ConvertAllCall
        (passed note.now)
        (side_of of_original) from.now to.now
        numbers.old out_starts.old out_ends.old
        result numbers.new out_starts.new out_ends.new }
{
    let side = side_of(of_original);
    note::verdicts::answer(convert_list::convert_list(
        note, side, from, to, numbers, out_starts, out_ends,
    ))
}
