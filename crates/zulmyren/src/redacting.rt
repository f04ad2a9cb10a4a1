// Blanking literals: one in a fresh text, one in a note, several in a note.
ghost use Rattle.note.specs.Notes.{passed};
ghost use Rattle.redact_all.specs.RedactAll.{buffers};
ghost use Rattle.zulmyren.specs.Promised.{RedactAllCall, RedactCall, RedactNoteCall};

use crate::answers::{Blanked, BlankedAll};
use buffers::Offset;
use note::NormalizedString;

pub fn zulmyren_redact(
    text: &[u8],
    literal: &[u8],
    content: &[u8],
    out: &mut [u8],
    out_starts: &mut [Offset],
    out_ends: &mut [Offset],
) -> Blanked
    ensures { RedactCall text.now literal.now content.now
        out.old out_starts.old out_ends.old
        result out.new out_starts.new out_ends.new }
{
    Blanked::from(redact::redact(text, literal, content, out, out_starts, out_ends))
}

pub fn zulmyren_redact_note(
    note: &NormalizedString,
    literal: &[u8],
    content: &[u8],
    list: &mut [u8],
    out: &mut [u8],
    out_starts: &mut [Offset],
    out_ends: &mut [Offset],
) -> Blanked
    ensures { RedactNoteCall
        (passed note.now)
        literal.now content.now
        list.old out.old out_starts.old out_ends.old
        result list.new out.new out_starts.new out_ends.new }
{
    Blanked::from(redact_note::redact_note(note, literal, content, list, out, out_starts, out_ends))
}

pub fn zulmyren_redact_all(
    note: &NormalizedString,
    words: &[u8],
    sizes: &[u32],
    out: &mut [u8],
    out_starts: &mut [Offset],
    out_ends: &mut [Offset],
    blanked: &mut [u32],
    left: &mut [u32],
    fillers: &mut [u32],
) -> BlankedAll
    ensures { RedactAllCall
        (passed note.now)
        words.now sizes.now
        (buffers out.old out_starts.old out_ends.old
        blanked.old left.old fillers.old)
        result
        (buffers out.new out_starts.new out_ends.new
        blanked.new left.new fillers.new) }
{
    BlankedAll::from(redact_all::redact_all(
        note, words, sizes, out, out_starts, out_ends, blanked, left, fillers,
    ))
}
