// Slicing, splitting, split offsets.
ghost use Rattle.note.specs.Notes.{lent};
ghost use Rattle.convert.specs.Converting.{range_of};
ghost use Rattle.split.specs.Splitting.{columns};
ghost use Rattle.zulmyren.specs.Calls.{behavior_of, empty_of, side_of, unit_of};
ghost use Rattle.zulmyren.specs.Promised.{GetSplitsCall, SliceCall, SplitCall};

use buffers::Offset;
use note::NormalizedString;
use zulmyren::answers::{Cut, Slice, Written};

#[unsafe(no_mangle)]
pub extern "C" fn zulmyren_slice(
    original: &[u8],
    normalized: &[u8],
    starts: &[Offset],
    ends: &[Offset],
    original_shift: u32,
    of_original: bool,
    start: u32,
    end: u32,
    out_starts: &mut [Offset],
    out_ends: &mut [Offset],
) -> Slice
    ensures { SliceCall
        (lent original.now normalized.now
        starts.now ends.now original_shift)
        (range_of (side_of of_original) start end)
        out_starts.old out_ends.old
        result out_starts.new out_ends.new }
{
    zulmyren::slices::zulmyren_slice(
        &NormalizedString {
            original,
            normalized,
            starts,
            ends,
            original_shift,
        },
        of_original,
        start,
        end,
        out_starts,
        out_ends,
    )
}

#[unsafe(no_mangle)]
pub extern "C" fn zulmyren_split(
    original: &[u8],
    normalized: &[u8],
    starts: &[Offset],
    ends: &[Offset],
    original_shift: u32,
    list: &[u8],
    behavior: u32,
    drop_empty: bool,
    piece_starts: &mut [Offset],
    piece_ends: &mut [Offset],
    piece_shifts: &mut [u32],
    piece_lengths: &mut [Offset],
    out_starts: &mut [Offset],
    out_ends: &mut [Offset],
) -> Cut
    ensures { SplitCall
        (lent original.now normalized.now
        starts.now ends.now original_shift) list.now
        (behavior_of behavior) (empty_of drop_empty)
        (columns piece_starts.old piece_ends.old piece_shifts.old
        piece_lengths.old out_starts.old out_ends.old)
        result
        (columns piece_starts.new piece_ends.new piece_shifts.new
        piece_lengths.new out_starts.new out_ends.new) }
{
    zulmyren::slices::zulmyren_split(
        &NormalizedString {
            original,
            normalized,
            starts,
            ends,
            original_shift,
        },
        list,
        behavior,
        drop_empty,
        piece_starts,
        piece_ends,
        piece_shifts,
        piece_lengths,
        out_starts,
        out_ends,
    )
}

#[unsafe(no_mangle)]
pub extern "C" fn zulmyren_get_splits(
    original: &[u8],
    normalized: &[u8],
    starts: &[Offset],
    ends: &[Offset],
    original_shift: u32,
    list: &[u8],
    behavior: u32,
    of_original: bool,
    in_chars: bool,
    out_starts: &mut [u32],
    out_ends: &mut [u32],
) -> Written
    ensures { GetSplitsCall
        (lent original.now normalized.now
        starts.now ends.now original_shift) list.now
        (behavior_of behavior) (side_of of_original) (unit_of in_chars)
        out_starts.old out_ends.old
        result out_starts.new out_ends.new }
{
    zulmyren::slices::zulmyren_get_splits(
        &NormalizedString {
            original,
            normalized,
            starts,
            ends,
            original_shift,
        },
        list,
        behavior,
        of_original,
        in_chars,
        out_starts,
        out_ends,
    )
}
