// The note of a fresh text (RULES 1.6, 15.2; Rust: `NormalizedString::from`): each byte is aligned to its character.
#![tactic(auto)]

pub mod columns;

ghost use Rattle.note.specs.Notes.{limit};
ghost use Rattle.from_text.specs.FromText.{Started};

use buffers::Offset;
use checks::{check_text, least_of_two};
use columns::{write_ends, write_starts};
use note::Refusal;

// Writes one start and one end for each byte of the text. Refusals: those of a text, then `NoRoom`.
pub fn from_text(text: &[u8], starts: &mut [Offset], ends: &mut [Offset]) -> Result<(), Refusal>
    ensures { Started limit text.now starts.old ends.old result
        starts.new ends.new }
{
    check_text(text)?;
    if least_of_two(starts.len(), ends.len()) < text.len() {
        return Err(Refusal::NoRoom);
    }
    write_starts(text, starts);
    write_ends(text, ends);
    Ok(())
}
