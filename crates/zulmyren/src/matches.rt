// Finding, replacing, by a second road too, and what can be told of what was replaced.
ghost use Rattle.std.specs.Prelude.{◌≡◌};
ghost use Rattle.note.specs.Notes.{limit, passed};
ghost use Rattle.find.specs.Finding.{Finding};
ghost use Rattle.published_alike.specs.Alike.{alike_answer};
ghost use Rattle.zulmyren.specs.Calls.{Told, compared_of, written_of};
ghost use Rattle.replace_by_edits.specs.ByEdits.{scratch};
ghost use Rattle.zulmyren.specs.Promised.{ReplaceByEditsCall, ReplaceCall};

use crate::answers::{Comparison, Written};
use buffers::Offset;
use note::NormalizedString;

pub fn zulmyren_find_matches(text: &[u8], literal: &[u8], out: &mut [u8]) -> Written
    ensures { Told written_of (λ v. Finding limit text.now literal.now out.old
        v out.new) result }
{
    Written::from(find::find_matches(text, literal, out))
}

pub fn zulmyren_replace(
    note: &NormalizedString,
    list: &[u8],
    content: &[u8],
    out: &mut [u8],
    out_starts: &mut [Offset],
    out_ends: &mut [Offset],
) -> Written
    ensures { ReplaceCall
        (passed note.now)
        list.now content.now
        out.old out_starts.old out_ends.old
        result out.new out_starts.new out_ends.new }
{
    Written::from(replace::replace(note, list, content, out, out_starts, out_ends))
}

pub fn zulmyren_replace_by_edits(
    note: &NormalizedString,
    list: &[u8],
    content: &[u8],
    out: &mut [u8],
    out_starts: &mut [Offset],
    out_ends: &mut [Offset],
    first: &mut [u8],
    first_starts: &mut [Offset],
    first_ends: &mut [Offset],
    second: &mut [u8],
    second_starts: &mut [Offset],
    second_ends: &mut [Offset],
) -> Written
    ensures { ReplaceByEditsCall
        (passed note.now)
        list.now content.now
        out.old out_starts.old out_ends.old
        (scratch first.old first_starts.old first_ends.old)
        (scratch second.old second_starts.old second_ends.old)
        result out.new out_starts.new out_ends.new
        (scratch first.new first_starts.new first_ends.new)
        (scratch second.new second_starts.new second_ends.new) }
{
    Written::from(replace_by_edits::replace_by_edits(
        note,
        list,
        content,
        out,
        out_starts,
        out_ends,
        first,
        first_starts,
        first_ends,
        second,
        second_starts,
        second_ends,
    ))
}

pub fn zulmyren_published_alike(
    note: &NormalizedString,
    other: &NormalizedString,
    list: &[u8],
    content: &[u8],
) -> Comparison
    ensures { result ≡ compared_of (alike_answer limit
        (passed note.now)
        (passed other.now)
        list.now content.now) }
{
    Comparison::from(published_alike::published_alike(note, other, list, content))
}
