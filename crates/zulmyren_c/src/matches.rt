// Finding, replacing, by a second road too, and what can be told of what was replaced.
ghost use Rattle.std.specs.Prelude.{◌≡◌};
ghost use Rattle.note.specs.Notes.{lent, limit};
ghost use Rattle.find.specs.Finding.{Finding};
ghost use Rattle.published_alike.specs.Alike.{alike_answer};
ghost use Rattle.zulmyren.specs.Calls.{Told, compared_of, written_of};
ghost use Rattle.replace_by_edits.specs.ByEdits.{scratch};
ghost use Rattle.zulmyren.specs.Promised.{ReplaceByEditsCall, ReplaceCall};

use buffers::Offset;
use note::NormalizedString;
use zulmyren::answers::{Comparison, Written};

#[unsafe(no_mangle)]
pub extern "C" fn zulmyren_find_matches(text: &[u8], literal: &[u8], out: &mut [u8]) -> Written
    ensures { Told written_of (λ v. Finding limit text.now literal.now out.old
        v out.new) result }
{
    zulmyren::matches::zulmyren_find_matches(text, literal, out)
}

#[unsafe(no_mangle)]
pub extern "C" fn zulmyren_replace(
    original: &[u8],
    normalized: &[u8],
    starts: &[Offset],
    ends: &[Offset],
    original_shift: u32,
    list: &[u8],
    content: &[u8],
    out: &mut [u8],
    out_starts: &mut [Offset],
    out_ends: &mut [Offset],
) -> Written
    ensures { ReplaceCall
        (lent original.now normalized.now
        starts.now ends.now original_shift)
        list.now content.now
        out.old out_starts.old out_ends.old
        result out.new out_starts.new out_ends.new }
{
    zulmyren::matches::zulmyren_replace(
        &NormalizedString {
            original,
            normalized,
            starts,
            ends,
            original_shift,
        },
        list,
        content,
        out,
        out_starts,
        out_ends,
    )
}

#[unsafe(no_mangle)]
pub extern "C" fn zulmyren_replace_by_edits(
    original: &[u8],
    normalized: &[u8],
    starts: &[Offset],
    ends: &[Offset],
    original_shift: u32,
    list: &[u8],
    content: &[u8],
    out: &mut [u8],
    out_starts: &mut [Offset],
    out_ends: &mut [Offset],
    first: &mut [u8],
    first_starts: &mut [Offset],
    first_ends: &mut [Offset],
    second: &mut [u8],
    second_starts: &mut [Offset],
    second_ends: &mut [Offset],
) -> Written
    ensures { ReplaceByEditsCall
        (lent original.now normalized.now
        starts.now ends.now original_shift)
        list.now content.now
        out.old out_starts.old out_ends.old
        (scratch first.old first_starts.old first_ends.old)
        (scratch second.old second_starts.old second_ends.old)
        result out.new out_starts.new out_ends.new
        (scratch first.new first_starts.new first_ends.new)
        (scratch second.new second_starts.new second_ends.new) }
{
    zulmyren::matches::zulmyren_replace_by_edits(
        &NormalizedString {
            original,
            normalized,
            starts,
            ends,
            original_shift,
        },
        list,
        content,
        out,
        out_starts,
        out_ends,
        first,
        first_starts,
        first_ends,
        second,
        second_starts,
        second_ends,
    )
}

#[unsafe(no_mangle)]
pub extern "C" fn zulmyren_published_alike(
    original: &[u8],
    normalized: &[u8],
    starts: &[Offset],
    ends: &[Offset],
    original_shift: u32,
    other_original: &[u8],
    other: &[u8],
    other_starts: &[Offset],
    other_ends: &[Offset],
    other_shift: u32,
    list: &[u8],
    content: &[u8],
) -> Comparison
    ensures { result ≡ compared_of (alike_answer limit
        (lent original.now normalized.now
        starts.now ends.now original_shift)
        (lent other_original.now other.now
        other_starts.now other_ends.now other_shift)
        list.now content.now) }
{
    zulmyren::matches::zulmyren_published_alike(
        &NormalizedString {
            original,
            normalized,
            starts,
            ends,
            original_shift,
        },
        &NormalizedString {
            original: other_original,
            normalized: other,
            starts: other_starts,
            ends: other_ends,
            original_shift: other_shift,
        },
        list,
        content,
    )
}
