// Replacing the matches of a list, and blanking a literal; the buffers are filled already.
ghost use Rattle.replayed_edits.specs.Replaying.{RedactCase, ReplaceCase};

use buffers::Offset;
use note::NormalizedString;
use stored_answers::fields::{field, value};
use zulmyren::answers::Written;
use zulmyren::matches::zulmyren_replace;
use zulmyren::redacting::zulmyren_redact;

// A note, a list, a content.
pub fn replace(
    case: &[u8],
    starts: &[Offset],
    ends: &[Offset],
    out: &mut [u8],
    out_starts: &mut [Offset],
    out_ends: &mut [Offset],
) -> Written
    ensures { ReplaceCase case.now starts.now ends.now
        out.old out_starts.old out_ends.old
        result out.new out_starts.new out_ends.new }
{
    zulmyren_replace(
        &NormalizedString {
            original: field(case, 0),
            normalized: field(case, 1),
            starts,
            ends,
            original_shift: value(case, 4),
        },
        field(case, 5),
        field(case, 6),
        out,
        out_starts,
        out_ends,
    )
}

// A text, a literal, a content. How many matches gave way is not stored.
pub fn redact(
    case: &[u8],
    out: &mut [u8],
    out_starts: &mut [Offset],
    out_ends: &mut [Offset],
) -> Written
    ensures { RedactCase case.now
        out.old out_starts.old out_ends.old
        result out.new out_starts.new out_ends.new }
{
    let answer = zulmyren_redact(
        field(case, 0),
        field(case, 1),
        field(case, 2),
        out,
        out_starts,
        out_ends,
    );
    Written {
        refusal: answer.refusal,
        len: answer.len,
    }
}
