// Whole-note edits (RULES 8; Rust: `filter`, `prepend`, `append`, `map`, `clear`).
#![tactic(auto)]

pub mod front;
pub mod mapping;

ghost use Rattle.note.specs.Notes.{passed};
ghost use Rattle.edits.specs.Whole.{ClearCall};

use buffers::{Offset, copy};
use checks::{check_note, least_room};
use front::widthless;
use note::{NormalizedString, Refusal};

// Rust: `clear`: the head stays. Refusals: those of a note, 9.
pub fn clear(
    note: &NormalizedString,
    out: &mut [u8],
    out_starts: &mut [Offset],
    out_ends: &mut [Offset],
) -> Result<(usize, usize), Refusal>
    ensures { ClearCall
        (passed note.now)
        out.old out_starts.old out_ends.old
        result out.new out_starts.new out_ends.new }
{
    let NormalizedString {
        normalized,
        starts,
        ends,
        ..
    } = *note;
    check_note(note)?;
    let left = widthless(starts, ends);
    if least_room(out.len(), out_starts.len(), out_ends.len()) < left {
        return Err(Refusal::NoRoom);
    }
    copy(&normalized[..left], out, 0);
    copy(&starts[..left], out_starts, 0);
    copy(&ends[..left], out_ends, 0);
    Ok((normalized.len(), left))
}
