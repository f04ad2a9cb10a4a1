// The letter count of a range of a text (RULES 3.7).
ghost use Rattle.std.specs.Prelude.{◌≡◌};
ghost use Rattle.note.specs.Notes.{limit};
ghost use Rattle.char_offsets.specs.Counting.{letter_count};

use checks::check_text;
use note::{OriginalByte, Refusal};
use utf8::count::count_leads;
use utf8::is_char_range;

// How many letters there are from `start` up to `end`, one for each character. A text alone is a transcript. Refusals:
// those of a text, then `NotBoundary`.
pub fn letter_count(text: &[u8], start: OriginalByte, end: OriginalByte) -> Result<u32, Refusal>
    ensures { result ≡ letter_count limit text.now start.0 end.0 }
{
    check_text(text)?;
    let from = start.0 as usize;
    let to = end.0 as usize;
    if !is_char_range(text, from, to) {
        return Err(Refusal::NotBoundary);
    }
    Ok(count_leads(&text[from..to]) as u32)
}
