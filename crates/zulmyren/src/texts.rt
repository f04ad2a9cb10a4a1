// Calls on a text alone.
ghost use Rattle.std.specs.Prelude.{◌≡◌};
ghost use Rattle.utf8.specs.Formed.{well_formed};
ghost use Rattle.note.specs.Notes.{limit};
ghost use Rattle.char_offsets.specs.Counting.{letter_count};
ghost use Rattle.char_offsets.specs.Positions.{char_offsets};
ghost use Rattle.zulmyren.specs.Calls.{chars_of, letters_of};
ghost use Rattle.zulmyren.specs.Promised.{CharOffsetsAllCall};

use crate::answers::{Count, Offsets};
use note::OriginalByte;

pub fn zulmyren_well_formed(text: &[u8]) -> bool
    ensures { result ≡ well_formed text.now }
{
    validity::well_formed(text)
}

pub fn zulmyren_letter_count(text: &[u8], start: u32, end: u32) -> Count
    ensures { result ≡ letters_of (letter_count limit text.now start end) }
{
    Count::from(char_offsets::letters::letter_count(text, OriginalByte(start), OriginalByte(end)))
}

pub fn zulmyren_char_offsets(text: &[u8], start: u32, end: u32) -> Offsets
    ensures { result ≡ chars_of (char_offsets limit text.now start end) }
{
    Offsets::from(char_offsets::char_offsets(text, OriginalByte(start), OriginalByte(end)))
}

pub fn zulmyren_char_offsets_all(
    text: &[u8],
    starts: &[u32],
    ends: &[u32],
    numbers: &mut [u8],
    char_starts: &mut [u32],
    char_ends: &mut [u32],
) -> u32
    ensures { CharOffsetsAllCall
        text.now starts.now ends.now
        numbers.old char_starts.old char_ends.old
        result numbers.new char_starts.new char_ends.new }
{
    note::verdicts::answer(char_offsets::char_offsets_list(
        text,
        starts,
        ends,
        numbers,
        char_starts,
        char_ends,
    ))
}
