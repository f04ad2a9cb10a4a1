// Blanking literals: one in a fresh text, one in a note, several in a note.
ghost use Rattle.note.specs.Notes.{lent};
ghost use Rattle.redact_all.specs.RedactAll.{buffers};
ghost use Rattle.zulmyren.specs.Promised.{RedactAllCall, RedactCall, RedactNoteCall};

use buffers::Offset;
use note::NormalizedString;
use zulmyren::answers::{Blanked, BlankedAll};

#[unsafe(no_mangle)]
pub extern "C" fn zulmyren_redact(
    text: &[u8],
    literal: &[u8],
    content: &[u8],
    out: &mut [u8],
    out_starts: &mut [Offset],
    out_ends: &mut [Offset],
) -> Blanked
    ensures { RedactCall text.now literal.now content.now
        out.old out_starts.old out_ends.old
        result out.new out_starts.new out_ends.new }
{
    zulmyren::redacting::zulmyren_redact(text, literal, content, out, out_starts, out_ends)
}

#[unsafe(no_mangle)]
pub extern "C" fn zulmyren_redact_note(
    original: &[u8],
    normalized: &[u8],
    starts: &[Offset],
    ends: &[Offset],
    original_shift: u32,
    literal: &[u8],
    content: &[u8],
    list: &mut [u8],
    out: &mut [u8],
    out_starts: &mut [Offset],
    out_ends: &mut [Offset],
) -> Blanked
    ensures { RedactNoteCall
        (lent original.now normalized.now
        starts.now ends.now original_shift)
        literal.now content.now
        list.old out.old out_starts.old out_ends.old
        result list.new out.new out_starts.new out_ends.new }
{
    zulmyren::redacting::zulmyren_redact_note(
        &NormalizedString {
            original,
            normalized,
            starts,
            ends,
            original_shift,
        },
        literal,
        content,
        list,
        out,
        out_starts,
        out_ends,
    )
}

#[unsafe(no_mangle)]
pub extern "C" fn zulmyren_redact_all(
    original: &[u8],
    normalized: &[u8],
    starts: &[Offset],
    ends: &[Offset],
    original_shift: u32,
    words: &[u8],
    sizes: &[u32],
    out: &mut [u8],
    out_starts: &mut [Offset],
    out_ends: &mut [Offset],
    blanked: &mut [u32],
    left: &mut [u32],
    fillers: &mut [u32],
) -> BlankedAll
    ensures { RedactAllCall
        (lent original.now normalized.now
        starts.now ends.now original_shift)
        words.now sizes.now
        (buffers out.old out_starts.old out_ends.old
        blanked.old left.old fillers.old)
        result
        (buffers out.new out_starts.new out_ends.new
        blanked.new left.new fillers.new) }
{
    zulmyren::redacting::zulmyren_redact_all(
        &NormalizedString {
            original,
            normalized,
            starts,
            ends,
            original_shift,
        },
        words,
        sizes,
        out,
        out_starts,
        out_ends,
        blanked,
        left,
        fillers,
    )
}
