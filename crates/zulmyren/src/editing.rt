// Editing: scripts, and the edits of a whole note.
ghost use Rattle.note.specs.Notes.{passed};
ghost use Rattle.convert.specs.Converting.{range_of};
ghost use Rattle.transform.specs.Transforming.{whole_original};
ghost use Rattle.zulmyren.specs.Calls.{side_of};
ghost use Rattle.zulmyren.specs.Edits.{AppendTold, ClearTold, FilterTold, LowercaseTold, MapTold};
ghost use Rattle.zulmyren.specs.Edits.{PrependTold, TransformTold};

use crate::answers::{Lengths, Written};
use crate::ranges::side_of;
use buffers::Offset;
use convert::range_of;
use note::NormalizedString;

pub fn zulmyren_transform_range(
    note: &NormalizedString,
    of_original: bool,
    start: u32,
    end: u32,
    script: &[u8],
    initial_offset: u32,
    out: &mut [u8],
    out_starts: &mut [Offset],
    out_ends: &mut [Offset],
) -> Written
    ensures { TransformTold
        (passed note.now)
        (range_of (side_of of_original) start end) script.now initial_offset
        out.old out_starts.old out_ends.old
        result out.new out_starts.new out_ends.new }
{
    let range = range_of(side_of(of_original), start, end);
    Written::from(transform::transform_range(
        note,
        range,
        script,
        initial_offset,
        out,
        out_starts,
        out_ends,
    ))
}

pub fn zulmyren_transform(
    note: &NormalizedString,
    script: &[u8],
    initial_offset: u32,
    out: &mut [u8],
    out_starts: &mut [Offset],
    out_ends: &mut [Offset],
) -> Written
    ensures { TransformTold
        (passed note.now)
        (whole_original note.now.original.now) script.now initial_offset
        out.old out_starts.old out_ends.old
        result out.new out_starts.new out_ends.new }
{
    Written::from(transform::transform(note, script, initial_offset, out, out_starts, out_ends))
}

pub fn zulmyren_map(
    note: &NormalizedString,
    codes: &[u32],
    out: &mut [u8],
    out_starts: &mut [Offset],
    out_ends: &mut [Offset],
) -> Written
    ensures { MapTold
        (passed note.now) codes.now
        out.old out_starts.old out_ends.old
        result out.new out_starts.new out_ends.new }
{
    Written::from(edits::mapping::map(note, codes, out, out_starts, out_ends))
}

pub fn zulmyren_lowercase(
    note: &NormalizedString,
    out: &mut [u8],
    out_starts: &mut [Offset],
    out_ends: &mut [Offset],
) -> Written
    ensures { LowercaseTold
        (passed note.now)
        out.old out_starts.old out_ends.old
        result out.new out_starts.new out_ends.new }
{
    Written::from(lowercase::lowercase(note, out, out_starts, out_ends))
}

pub fn zulmyren_filter(
    note: &NormalizedString,
    flags: &[u8],
    out: &mut [u8],
    out_starts: &mut [Offset],
    out_ends: &mut [Offset],
) -> Written
    ensures { FilterTold
        (passed note.now) flags.now
        out.old out_starts.old out_ends.old
        result out.new out_starts.new out_ends.new }
{
    Written::from(filters::filter(note, flags, out, out_starts, out_ends))
}

pub fn zulmyren_append(
    note: &NormalizedString,
    string: &[u8],
    out: &mut [u8],
    out_starts: &mut [Offset],
    out_ends: &mut [Offset],
) -> Written
    ensures { AppendTold
        (passed note.now) string.now
        out.old out_starts.old out_ends.old
        result out.new out_starts.new out_ends.new }
{
    Written::from(append_prepend::append(note, string, out, out_starts, out_ends))
}

pub fn zulmyren_prepend(
    note: &NormalizedString,
    string: &[u8],
    out: &mut [u8],
    out_starts: &mut [Offset],
    out_ends: &mut [Offset],
) -> Written
    ensures { PrependTold
        (passed note.now) string.now
        out.old out_starts.old out_ends.old
        result out.new out_starts.new out_ends.new }
{
    Written::from(append_prepend::prepend(note, string, out, out_starts, out_ends))
}

pub fn zulmyren_clear(
    note: &NormalizedString,
    out: &mut [u8],
    out_starts: &mut [Offset],
    out_ends: &mut [Offset],
) -> Lengths
    ensures { ClearTold
        (passed note.now)
        out.old out_starts.old out_ends.old
        result out.new out_starts.new out_ends.new }
{
    Lengths::from(edits::clear(note, out, out_starts, out_ends))
}
