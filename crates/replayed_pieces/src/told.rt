// Whether a call answers, and leaves in the buffers, what the fields from `index` on say.
ghost use Rattle.std.specs.Prelude.{◌≡◌, ◌<◌, ◌+◌, ◌&&◌};
ghost use Rattle.replayed_pieces.specs.Stored.{pairs_stored, pieces_stored, slice_stored, splits_stored};
ghost use Rattle.buffers.specs.Same.{same};
ghost use Rattle.note.specs.Notes.{limit};
ghost use Rattle.stored_answers.specs.Framing.{field_of, is_number};
ghost use Rattle.stored_answers.specs.Differences.{offset_column};

use buffers::Offset;
use stored_answers::columns::{are_numbers, are_offsets};
use stored_answers::fields::{is_number, is_size, is_text};
use zulmyren::answers::{Cut, Offsets, Slice, Written};

// The refusal, start, end.
// An inner function: `index` is below 100, so that adding to it does not wrap.
pub fn is_range(case: &[u8], index: usize, answer: Offsets) -> bool
    requires { index < 100 }
    ensures { result ≡ (is_number (field_of index case.now) answer.refusal
        && is_number (field_of (index + 1) case.now) answer.start)
        && is_number (field_of (index + 2) case.now) answer.end }
{
    is_number(case, index, answer.refusal)
        & is_number(case, index + 1, answer.start)
        & is_number(case, index + 2, answer.end)
}

// The refusal, the list's size, the list.
// An inner function: `index` is below 100, so that adding to it does not wrap.
pub fn is_list(case: &[u8], index: usize, answer: Written, list: &[u8]) -> bool
    requires { index < 100 }
    ensures { result ≡ (is_number (field_of index case.now) answer.refusal
        && is_number (field_of (index + 1) case.now) answer.len)
        && same (field_of (index + 2) case.now) list.now }
{
    is_number(case, index, answer.refusal)
        & is_size(case, index + 1, answer.len)
        & is_text(case, index + 2, list)
}

// The refusal, two columns.
// An inner function: `index` is below 100, so that adding to it does not wrap.
pub fn are_columns(
    case: &[u8],
    index: usize,
    refusal: u32,
    starts: &[Offset],
    ends: &[Offset],
) -> bool
    requires { index < 100 }
    ensures { result ≡ (is_number (field_of index case.now) refusal
        && same starts.now (offset_column limit (field_of (index + 1) case.now)))
        && same ends.now (offset_column limit (field_of (index + 2) case.now)) }
{
    is_number(case, index, refusal)
        & are_offsets(case, index + 1, starts)
        & are_offsets(case, index + 2, ends)
}

// The refusal, and a number, start and end for each pair of a list.
// An inner function: `index` is below 100, so that adding to it does not wrap.
pub fn are_pairs(
    case: &[u8],
    index: usize,
    refusal: u32,
    numbers: &[u8],
    starts: &[u32],
    ends: &[u32],
) -> bool
    requires { index < 100 }
    ensures { result ≡ pairs_stored case.now index refusal
        numbers.now starts.now ends.now }
{
    is_number(case, index, refusal)
        & is_text(case, index + 1, numbers)
        & are_numbers(case, index + 2, starts)
        & are_numbers(case, index + 3, ends)
}

// The refusal, the two ranges of a slice, its shift.
// An inner function: `index` is below 100, so that adding to it does not wrap.
pub fn is_slice(case: &[u8], index: usize, answer: Slice) -> bool
    requires { index < 100 }
    ensures { result ≡ slice_stored case.now index answer }
{
    is_number(case, index, answer.refusal)
        & is_number(case, index + 1, answer.original_start)
        & is_number(case, index + 2, answer.original_end)
        & is_number(case, index + 3, answer.normalized_start)
        & is_number(case, index + 4, answer.normalized_end)
        & is_number(case, index + 5, answer.original_shift)
}

// The refusal, how many pieces and alignments there are, the four columns of pieces.
// An inner function: `index` is below 100, so that adding to it does not wrap.
pub fn are_pieces(
    case: &[u8],
    index: usize,
    answer: Cut,
    starts: &[Offset],
    ends: &[Offset],
    shifts: &[u32],
    lengths: &[Offset],
) -> bool
    requires { index < 100 }
    ensures { result ≡ pieces_stored case.now index answer
        starts.now ends.now shifts.now lengths.now }
{
    is_number(case, index, answer.refusal)
        & is_size(case, index + 1, answer.len)
        & is_size(case, index + 2, answer.alignments_len)
        & are_offsets(case, index + 3, starts)
        & are_offsets(case, index + 4, ends)
        & are_numbers(case, index + 5, shifts)
        & are_offsets(case, index + 6, lengths)
}

// The refusal, how many there are, their starts and ends.
// An inner function: `index` is below 100, so that adding to it does not wrap.
pub fn are_splits(case: &[u8], index: usize, answer: Written, starts: &[u32], ends: &[u32]) -> bool
    requires { index < 100 }
    ensures { result ≡ splits_stored case.now index answer
        starts.now ends.now }
{
    is_number(case, index, answer.refusal)
        & is_size(case, index + 1, answer.len)
        & are_numbers(case, index + 2, starts)
        & are_numbers(case, index + 3, ends)
}
