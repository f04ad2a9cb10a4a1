// The check of a note, and the note of a fresh text.
ghost use Rattle.std.specs.Prelude.{◌≡◌};
ghost use Rattle.note.specs.Notes.{limit, passed};
ghost use Rattle.note.specs.Faults.{note_faults};
ghost use Rattle.note.specs.Refusals.{answer_of, verdict};
ghost use Rattle.from_text.specs.FromText.{Started};
ghost use Rattle.zulmyren.specs.Calls.{Told};

use buffers::Offset;
use note::NormalizedString;

pub fn zulmyren_check_note(note: &NormalizedString) -> u32
    ensures { result ≡ answer_of (verdict (note_faults limit
        (passed note.now))) }
{
    note::verdicts::answer(checks::check_note(note))
}

pub fn zulmyren_from_text(text: &[u8], starts: &mut [Offset], ends: &mut [Offset]) -> u32
    ensures { Told answer_of (λ v. Started limit text.now starts.old ends.old
        v starts.new ends.new) result }
{
    note::verdicts::answer(from_text::from_text(text, starts, ends))
}
