// Slicing, splitting, split offsets.
ghost use Rattle.std.specs.Prelude.{◌≡◌};
ghost use Rattle.note.specs.Notes.{passed};
ghost use Rattle.convert.specs.Converting.{range_of};
ghost use Rattle.split.specs.Splitting.{columns};
ghost use Rattle.zulmyren.specs.Calls.{behavior_of, empty_of, side_of, unit_of};
ghost use Rattle.zulmyren.specs.Promised.{GetSplitsCall, SliceCall, SplitCall};

use crate::answers::{Cut, Slice, Written};
use crate::ranges::side_of;
use behaviors::{EmptyPieces, SplitDelimiterBehavior};
use buffers::Offset;
use char_columns::OffsetType;
use convert::range_of;
use note::NormalizedString;

// A behaviour by its number: 1 to 4, and Contiguous by any other.
fn behavior_of(number: u32) -> SplitDelimiterBehavior
    ensures { result ≡ behavior_of number }
{
    match number {
        1 => SplitDelimiterBehavior::Removed,
        2 => SplitDelimiterBehavior::Isolated,
        3 => SplitDelimiterBehavior::MergedWithPrevious,
        4 => SplitDelimiterBehavior::MergedWithNext,
        _ => SplitDelimiterBehavior::Contiguous,
    }
}

// What becomes of pieces without a byte.
fn empty_of(drop_empty: bool) -> EmptyPieces
    ensures { result ≡ empty_of drop_empty }
{
    if drop_empty {
        return EmptyPieces::Dropped;
    }
    EmptyPieces::Kept
}

// What offsets count.
fn unit_of(in_chars: bool) -> OffsetType
    ensures { result ≡ unit_of in_chars }
{
    if in_chars {
        return OffsetType::Char;
    }
    OffsetType::Byte
}

pub fn zulmyren_slice(
    note: &NormalizedString,
    of_original: bool,
    start: u32,
    end: u32,
    out_starts: &mut [Offset],
    out_ends: &mut [Offset],
) -> Slice
    ensures { SliceCall
        (passed note.now)
        (range_of (side_of of_original) start end)
        out_starts.old out_ends.old
        result out_starts.new out_ends.new }
{
    let range = range_of(side_of(of_original), start, end);
    Slice::from(slice::slice(note, range, out_starts, out_ends))
}

pub fn zulmyren_split(
    note: &NormalizedString,
    list: &[u8],
    behavior: u32,
    drop_empty: bool,
    piece_starts: &mut [Offset],
    piece_ends: &mut [Offset],
    piece_shifts: &mut [u32],
    piece_lengths: &mut [Offset],
    out_starts: &mut [Offset],
    out_ends: &mut [Offset],
) -> Cut
    ensures { SplitCall
        (passed note.now) list.now
        (behavior_of behavior) (empty_of drop_empty)
        (columns piece_starts.old piece_ends.old piece_shifts.old
        piece_lengths.old out_starts.old out_ends.old)
        result
        (columns piece_starts.new piece_ends.new piece_shifts.new
        piece_lengths.new out_starts.new out_ends.new) }
{
    Cut::from(split::split(
        note,
        list,
        behavior_of(behavior),
        empty_of(drop_empty),
        piece_starts,
        piece_ends,
        piece_shifts,
        piece_lengths,
        out_starts,
        out_ends,
    ))
}

pub fn zulmyren_get_splits(
    note: &NormalizedString,
    list: &[u8],
    behavior: u32,
    of_original: bool,
    in_chars: bool,
    out_starts: &mut [u32],
    out_ends: &mut [u32],
) -> Written
    ensures { GetSplitsCall
        (passed note.now) list.now
        (behavior_of behavior) (side_of of_original) (unit_of in_chars)
        out_starts.old out_ends.old
        result out_starts.new out_ends.new }
{
    Written::from(split_offsets::get_splits(
        note,
        list,
        behavior_of(behavior),
        side_of(of_original),
        unit_of(in_chars),
        out_starts,
        out_ends,
    ))
}
