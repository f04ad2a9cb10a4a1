// Split offsets (RULES 13; Rust: `PreTokenizedString::get_splits`, without tokens): where the pieces of a note stand.
#![tactic(auto)]

ghost use Rattle.std.specs.Prelude.{◌≡◌, ◌≤◌, length};
ghost use Rattle.note.specs.Notes.{limit, passed};
ghost use Rattle.note.specs.Refusals.{verdict};
ghost use Rattle.convert.specs.Converting.{range_of};
ghost use Rattle.split_offsets.specs.SplitOffsets.{GetSplits, splits_faults};
ghost use Rattle.split_offsets.specs.Steps.{BytesWritten, Piece, SpansConverted, SpansReady, from_byte, to_byte};

use behaviors::{EmptyPieces, SplitDelimiterBehavior, measure};
use buffers::Offset;
use char_columns::{OffsetType, write_chars};
use checks::{check_note, least_of_two};
use convert::{OffsetReferential, Range, end_of, start_of};
use note::verdicts::refused_if;
use note::{NormalizedByte, NormalizedString, OriginalByte, Refusal};
use pattern::{covers, most_places};
use spans::{span_end, span_start, write_packed};

// The bytes of the piece from..to of the cleaned text: in the transcript, from the shift on; or in the cleaned text,
// after pieces of `sum` bytes.
fn piece_bytes(
    starts: &[Offset],
    ends: &[Offset],
    original_shift: u32,
    side: OffsetReferential,
    sum: NormalizedByte,
    from: NormalizedByte,
    to: NormalizedByte,
) -> Range
    requires { Piece limit starts.now ends.now original_shift sum.0 from.0 to.0 }
    ensures { result ≡ range_of side (from_byte starts.now original_shift side sum.0 from.0)
        (to_byte ends.now original_shift side sum.0 from.0 to.0) }
{
    match side {
        OffsetReferential::Original => {
            let first = from.0 as usize;
            let past = to.0 as usize;
            let start = OriginalByte(original_shift + starts[first] as u32);
            let end = OriginalByte(original_shift + ends[past - 1] as u32);
            Range::Original(start, end)
        }
        OffsetReferential::Normalized => {
            let end = NormalizedByte(sum.0 + (to.0 - from.0));
            Range::Normalized(sum, end)
        }
    }
}

// The cleaned starts and ends of pieces, in front of the first column, become their bytes, in front of both.
fn write_bytes(
    starts: &[Offset],
    ends: &[Offset],
    original_shift: u32,
    side: OffsetReferential,
    count: usize,
    out_starts: &mut [u32],
    out_ends: &mut [u32],
)
    requires { SpansReady limit starts.now ends.now original_shift count
        out_starts.old out_ends.old }
    ensures { BytesWritten starts.now ends.now original_shift side count
        out_starts.old out_ends.old
        out_starts.new out_ends.new }
{
    let mut sum = NormalizedByte(0);
    for k in 0..count {
        let span = out_starts[k];
        let from = NormalizedByte(span_start(span));
        let to = NormalizedByte(span_end(span));
        let bytes = piece_bytes(starts, ends, original_shift, side, sum, from, to);
        out_starts[k] = start_of(bytes);
        out_ends[k] = end_of(bytes);
        sum = NormalizedByte(sum.0 + (to.0 - from.0));
    }
}

// The cleaned starts and ends of pieces, in front of the first column, become the offsets that were asked.
fn convert_spans(
    original: &[u8],
    starts: &[Offset],
    ends: &[Offset],
    original_shift: u32,
    side: OffsetReferential,
    unit: OffsetType,
    count: usize,
    out_starts: &mut [u32],
    out_ends: &mut [u32],
)
    requires spans_ready { SpansReady limit starts.now ends.now original_shift count
        out_starts.old out_ends.old }
    requires original_len_bound { length original.now ≤ limit }
    ensures { SpansConverted original.now starts.now ends.now original_shift
        side unit count out_starts.old out_ends.old
        out_starts.new out_ends.new }
{
    write_bytes(
        starts,
        ends,
        original_shift,
        side,
        count,
        out_starts,
        out_ends,
    );
    match unit {
        OffsetType::Byte => {}
        OffsetType::Char => write_chars(original, side, count, out_starts, out_ends),
    }
}

// What `get_splits` says of a note and a list beside the room that is given.
fn check_splits(
    note: &NormalizedString,
    list: &[u8],
    behavior: SplitDelimiterBehavior,
    room: usize,
) -> Result<(), Refusal>
    ensures { result ≡ verdict (splits_faults limit
        (passed note.now) list.now behavior room) }
{
    check_note(note)?;
    if !covers(note.normalized, list) {
        return Err(Refusal::BadMatches);
    }
    if most_places(list) <= room {
        return Ok(());
    }
    let sizes = measure(list, behavior, EmptyPieces::Dropped);
    refused_if(room < sizes.pieces, Refusal::NoRoom)
}

// The offsets of the pieces that a list and a behaviour give, of which empty ones are dropped, are written in
// front of the two columns. Refusals: those of a note, then `BadMatches`, `NoRoom`.
pub fn get_splits(
    note: &NormalizedString,
    list: &[u8],
    behavior: SplitDelimiterBehavior,
    side: OffsetReferential,
    unit: OffsetType,
    out_starts: &mut [u32],
    out_ends: &mut [u32],
) -> Result<usize, Refusal>
    ensures { GetSplits limit
        (passed note.now) list.now behavior side unit
        out_starts.old out_ends.old
        result out_starts.new out_ends.new }
{
    let NormalizedString {
        original,
        starts,
        ends,
        original_shift,
        ..
    } = *note;
    let room = least_of_two(out_starts.len(), out_ends.len());
    check_splits(note, list, behavior, room)?;
    let count = write_packed(list, behavior, EmptyPieces::Dropped, out_starts);
    convert_spans(
        original,
        starts,
        ends,
        original_shift,
        side,
        unit,
        count,
        out_starts,
        out_ends,
    );
    Ok(count)
}
