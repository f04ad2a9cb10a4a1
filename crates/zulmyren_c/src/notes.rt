// The check of a note, and the note of a fresh text.
ghost use Rattle.std.specs.Prelude.{◌≡◌};
ghost use Rattle.note.specs.Notes.{lent, limit};
ghost use Rattle.note.specs.Faults.{note_faults};
ghost use Rattle.note.specs.Refusals.{answer_of, verdict};
ghost use Rattle.from_text.specs.FromText.{Started};
ghost use Rattle.zulmyren.specs.Calls.{Told};

use buffers::Offset;
use note::NormalizedString;

#[unsafe(no_mangle)]
pub extern "C" fn zulmyren_check_note(
    original: &[u8],
    normalized: &[u8],
    starts: &[Offset],
    ends: &[Offset],
    original_shift: u32,
) -> u32
    ensures { result ≡ answer_of (verdict (note_faults limit
        (lent original.now normalized.now
        starts.now ends.now original_shift))) }
{
    zulmyren::notes::zulmyren_check_note(&NormalizedString {
        original,
        normalized,
        starts,
        ends,
        original_shift,
    })
}

#[unsafe(no_mangle)]
pub extern "C" fn zulmyren_from_text(text: &[u8], starts: &mut [Offset], ends: &mut [Offset]) -> u32
    ensures { Told answer_of (λ v. Started limit text.now starts.old ends.old
        v starts.new ends.new) result }
{
    zulmyren::notes::zulmyren_from_text(text, starts, ends)
}
