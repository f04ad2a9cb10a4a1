// Whether a call that writes a text and its columns answers, and leaves in the buffers, what the fields from
// `index` on say.
ghost use Rattle.std.specs.Prelude.{◌≡◌, ◌<◌};
ghost use Rattle.replayed_edits.specs.Replaying.{clear_stored, edit_stored, published_stored};

use buffers::Offset;
use stored_answers::columns::are_offsets;
use stored_answers::fields::{is_number, is_size, is_text};
use zulmyren::answers::{Lengths, Written};

// A text and its columns.
// An inner function: `index` is below 100, so that adding to it does not wrap.
pub fn are_published(
    case: &[u8],
    index: usize,
    text: &[u8],
    starts: &[Offset],
    ends: &[Offset],
) -> bool
    requires { index < 100 }
    ensures { result ≡ published_stored case.now index
        text.now starts.now ends.now }
{
    is_text(case, index, text)
        & are_offsets(case, index + 1, starts)
        & are_offsets(case, index + 2, ends)
}

// The refusal, a size, and a text with its columns.
// An inner function: `index` is below 90, so that adding to it does not wrap.
pub fn is_published(
    case: &[u8],
    index: usize,
    answer: Written,
    text: &[u8],
    starts: &[Offset],
    ends: &[Offset],
) -> bool
    requires { index < 90 }
    ensures { result ≡ edit_stored case.now index answer
        text.now starts.now ends.now }
{
    is_number(case, index, answer.refusal)
        & is_size(case, index + 1, answer.len)
        & are_published(case, index + 2, text, starts, ends)
}

// The refusal, how long a text was and is, and it with its columns.
// An inner function: `index` is below 90, so that adding to it does not wrap.
pub fn is_cleared(
    case: &[u8],
    index: usize,
    answer: Lengths,
    text: &[u8],
    starts: &[Offset],
    ends: &[Offset],
) -> bool
    requires { index < 90 }
    ensures { result ≡ clear_stored case.now index answer
        text.now starts.now ends.now }
{
    is_number(case, index, answer.refusal)
        & is_size(case, index + 1, answer.before_len)
        & is_size(case, index + 2, answer.len)
        & are_published(case, index + 3, text, starts, ends)
}
