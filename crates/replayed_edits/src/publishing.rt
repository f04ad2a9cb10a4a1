// The calls that publish a note. The buffers for text, starts and ends are in the fields from `at` on,
// then the refusal, the size, the three buffers.
ghost use Rattle.std.specs.Prelude.{◌+◌, ◌<◌, take};
ghost use Rattle.note.specs.Notes.{limit};
ghost use Rattle.stored_answers.specs.Differences.{offset_column};
ghost use Rattle.stored_answers.specs.Framing.{field_of};
ghost use Rattle.replayed_edits.specs.Replaying.{CallAnswered, Published};

use crate::matches::{redact, replace};
use crate::road::replace_by_edits;
use crate::scripts::{transform, transform_range};
use crate::told::is_published;
use crate::whole::{append, clear, filter, lowercase, map, prepend};
use buffers::Offset;
use standard_input::large_buffer;
use stored_answers::calls::{EditCall, PublishingCall};
use stored_answers::columns::{bytes, offsets, zeros};
use zulmyren::answers::Written;

fn answered(
    call: EditCall,
    case: &[u8],
    starts: &[Offset],
    ends: &[Offset],
    out: &mut [u8],
    out_starts: &mut [Offset],
    out_ends: &mut [Offset],
) -> Written
    ensures { CallAnswered call case.now starts.now ends.now
        out.old out_starts.old out_ends.old
        result out.new out_starts.new out_ends.new }
{
    match call {
        EditCall::Replace => replace(case, starts, ends, out, out_starts, out_ends),
        EditCall::Redact => redact(case, out, out_starts, out_ends),
        EditCall::TransformRange => transform_range(case, starts, ends, out, out_starts, out_ends),
        EditCall::Transform => transform(case, starts, ends, out, out_starts, out_ends),
        EditCall::Map => map(case, starts, ends, out, out_starts, out_ends),
        EditCall::Lowercase => lowercase(case, starts, ends, out, out_starts, out_ends),
        EditCall::ReplaceByEdits => replace_by_edits(case, starts, ends, out, out_starts, out_ends),
        EditCall::Filter => filter(case, starts, ends, out, out_starts, out_ends),
        EditCall::Append => append(case, starts, ends, out, out_starts, out_ends),
        EditCall::Prepend => prepend(case, starts, ends, out, out_starts, out_ends),
    }
}

fn published(
    call: PublishingCall,
    case: &[u8],
    at: usize,
    starts: &[Offset],
    ends: &[Offset],
    out: &mut [u8],
    out_starts: &mut [Offset],
    out_ends: &mut [Offset],
) -> bool
    requires { at < 80 }
    ensures { Published call case.now at starts.now ends.now
        out.old out_starts.old out_ends.old result }
{
    match call {
        PublishingCall::Clear => clear(case, starts, ends, out, out_starts, out_ends),
        PublishingCall::Edit(edit) => {
            let answer = answered(edit, case, starts, ends, out, out_starts, out_ends);
            is_published(case, at + 3, answer, out, out_starts, out_ends)
        }
    }
}

// A call that publishes a note, by its name or by its number. An inner function: `at` is below 80, so that adding to it
// does not wrap.
pub fn on_publishing<C: Into<PublishingCall>>(
    call: C,
    case: &[u8],
    at: usize,
    starts: &[Offset],
    ends: &[Offset],
) -> bool
    requires { at < 80 }
    ensures { (is : PublishingCall) × (C.converts call is
        × Published is case.now at starts.now ends.now
        (take (limit + 1) (field_of at case.now)) (offset_column limit (field_of (at + 1) case.now))
        (offset_column limit (field_of (at + 2) case.now)) result) }
{
    let mut out = large_buffer();
    let mut out_starts = zeros();
    let mut out_ends = zeros();
    let o = bytes(case, at, &mut out);
    let s = offsets(case, at + 1, &mut out_starts);
    let e = offsets(case, at + 2, &mut out_ends);
    published(
        call.into(),
        case,
        at,
        starts,
        ends,
        &mut out[..o],
        &mut out_starts[..s],
        &mut out_ends[..e],
    )
}
