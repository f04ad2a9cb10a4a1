// Reading (RULES 5): the part of a text that a range names.
#![tactic(auto)]

ghost use Rattle.std.specs.Prelude.{◌≡◌};
ghost use Rattle.note.specs.Notes.{limit, passed};
ghost use Rattle.note.specs.Refusals.{verdict};
ghost use Rattle.get_range.specs.Reading.{get_range, get_range_original, got};
ghost use Rattle.get_range.specs.Reading.{part_faults, part_of, named_text};

use buffers::Offset;
use checks::{check_note, check_text};
use convert::{Range, as_normalized, as_original, end_of, start_of};
use note::verdicts::{earlier, refused_if};
use note::{NormalizedString, Refusal};
use utf8::is_char_range;

// What `str::get` makes of a converted range.
fn get(s: &[u8], answer: Result<Range, Refusal>) -> Result<Range, Refusal>
    ensures { result ≡ got s.now answer }
{
    let range = answer?;
    if is_char_range(s, start_of(range) as usize, end_of(range) as usize) {
        Ok(range)
    } else {
        Err(Refusal::Missing)
    }
}

// Rust: `get_range`: the range in the cleaned text. Refusals: those of a note, then `Missing`.
pub fn get_range(note: &NormalizedString, range: Range) -> Result<Range, Refusal>
    ensures { result ≡ get_range limit
        (passed note.now) range }
{
    let NormalizedString {
        normalized,
        starts,
        ends,
        ..
    } = *note;
    check_note(note)?;
    get(normalized, as_normalized(starts, ends, range))
}

// Rust: `get_range_original`: the range in the transcript. Refusals: those of a note, then `Missing`.
pub fn get_range_original(note: &NormalizedString, range: Range) -> Result<Range, Refusal>
    ensures { result ≡ get_range_original limit
        (passed note.now) range }
{
    let NormalizedString {
        original,
        starts,
        ends,
        ..
    } = *note;
    check_note(note)?;
    get(original, as_original(starts, ends, range))
}

// The text that a range names, of the two that are passed.
fn text_of<'a>(original: &'a [u8], normalized: &'a [u8], range: Range) -> &'a [u8]
    ensures { result.now ≡ named_text original.now normalized.now range }
{
    match range {
        Range::Original(_, _) => original,
        Range::Normalized(_, _) => normalized,
    }
}

// What the reader below refuses: the two texts, each as a text alone, then `Missing`.
pub fn part_verdict<'a>(
    original: &'a [u8],
    normalized: &'a [u8],
    range: Range,
) -> Result<(), Refusal>
    ensures { result ≡ verdict (part_faults limit original.now normalized.now range) }
{
    earlier(check_text(original), check_text(normalized))?;
    let text = text_of(original, normalized, range);
    refused_if(
        !is_char_range(text, start_of(range) as usize, end_of(range) as usize),
        Refusal::Missing,
    )
}

// The part that the range names of the text that it names, or that text's empty start where `part_verdict` refuses.
pub fn part_of<'a>(original: &'a [u8], normalized: &'a [u8], range: Range) -> &'a [u8]
    ensures { result.now ≡ part_of limit original.now normalized.now range }
{
    let text = text_of(original, normalized, range);
    if let Err(_) = part_verdict(original, normalized, range) {
        return &text[..0];
    }
    let start = start_of(range) as usize;
    let end = end_of(range) as usize;
    &text[start..end]
}
