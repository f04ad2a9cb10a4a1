// Blanking several literals in a note (RULES 15.10): one after the other, each in what the one before left, and what is
// left of them in the end. All steps are taken in buffers of the call's own before the first store into a passed one.
#![tactic(auto)]

ghost use Rattle.std.specs.Prelude.{◌≡◌, ◌≤◌, length};
ghost use Rattle.note.specs.Notes.{limit, passed};
ghost use Rattle.note.specs.Refusals.{verdict};
ghost use Rattle.redact_in_place.specs.InPlace.{held};
ghost use Rattle.word_pairs.specs.Counts.{some_count};
ghost use Rattle.redact_all.specs.RedactAll.{AllRedacted, all_input_faults, buffers};
ghost use Rattle.redact_all.specs.Stepping.{Checked, LimitLong, StepsReady, StepsTaken, Tellable, Told};

use buffers::{Offset, copy};
use checks::{check_note, least_room};
use note::verdicts::earlier;
use note::{LIMIT, NormalizedString, Refusal};
use redact_in_place::{column_buffer, redact_in_place, text_buffer};
use word_pairs::{Word, check_words, count_words, zeros};

// How many bytes are published; how many literals were not found; how many can still be read in what is published; and
// how many fillers the note had already.
#[derive(Clone, Copy)]
pub struct Report {
    pub len: usize,
    pub not_found: usize,
    pub left: usize,
    pub fillers_found: usize,
}

// Room for a count for each pair.
pub fn counts_buffer() -> [u32; LIMIT]
    ensures { limit ≡ length result }
{
    [0; LIMIT]
}

// Whether note or pairs are refused.
fn check_inputs(note: &NormalizedString, words: &[u8], sizes: &[u32]) -> Result<(), Refusal>
    ensures { result ≡ verdict (all_input_faults limit
        (passed note.now)
        words.now sizes.now) }
{
    let noted = check_note(note);
    earlier(noted, check_words(words, sizes))
}

// Blanks the literal of each pair in what the one before left of the note in the first `size` bytes of `text`; `counts`
// has how often. Where a step has no room, what the buffers hold is left to the program.
fn blank_pairs(
    original: &[u8],
    original_shift: u32,
    size: usize,
    words: &[u8],
    sizes: &[u32],
    text: &mut [u8],
    starts: &mut [Offset],
    ends: &mut [Offset],
    counts: &mut [u32],
) -> Option<usize>
    requires { StepsReady original.now original_shift size words.now sizes.now
        text.old starts.old ends.old counts.old }
    ensures { StepsTaken
        (held original.now original_shift size
        text.old starts.old ends.old)
        original.now original_shift words.now sizes.now counts.old
        result text.new starts.new ends.new counts.new }
{
    let mut size = size;
    let mut at = 0;
    for k in 0..sizes.len() / 2 {
        let middle = at + sizes[2 * k] as usize;
        let end = middle + sizes[2 * k + 1] as usize;
        let Ok((n, count)) = redact_in_place(
            original,
            original_shift,
            size,
            &words[at..middle],
            &words[middle..end],
            text,
            starts,
            ends,
        ) else {
            return None;
        };
        size = n;
        counts[k] = count as u32;
        at = end;
    }
    Some(size)
}

// The same of a note that was judged, copied to buffers of the limit's length.
fn take_steps(
    note: &NormalizedString,
    words: &[u8],
    sizes: &[u32],
    text: &mut [u8],
    text_starts: &mut [Offset],
    text_ends: &mut [Offset],
    counts: &mut [u32],
) -> Option<usize>
    requires { Checked
        (passed note.now) words.now sizes.now
        × LimitLong text.old text_starts.old text_ends.old counts.old }
    ensures { StepsTaken
        (passed note.now)
        note.now.original.now note.now.original_shift words.now sizes.now counts.old
        result text.new text_starts.new text_ends.new counts.new }
{
    let NormalizedString {
        original,
        normalized,
        starts,
        ends,
        original_shift,
    } = *note;
    copy(normalized, text, 0);
    copy(starts, text_starts, 0);
    copy(ends, text_ends, 0);
    blank_pairs(
        original,
        original_shift,
        normalized.len(),
        words,
        sizes,
        text,
        text_starts,
        text_ends,
        counts,
    )
}

// How many numbers are not 0.
fn nonzeros(column: &[u32]) -> usize
    ensures { result ≡ some_count column.now }
{
    column.len() - zeros(column)
}

// What is left is copied to where it is published, the words are counted in it and in the note, and all that is
// reported.
fn tell(
    normalized: &[u8],
    words: &[u8],
    sizes: &[u32],
    text: &[u8],
    text_starts: &[Offset],
    text_ends: &[Offset],
    counts: &[u32],
    out: &mut [u8],
    out_starts: &mut [Offset],
    out_ends: &mut [Offset],
    blanked: &mut [u32],
    left: &mut [u32],
    fillers: &mut [u32],
) -> Report
    requires { Tellable normalized.now words.now sizes.now
        text.now text_starts.now text_ends.now counts.now
        out.old out_starts.old out_ends.old blanked.old left.old fillers.old }
    ensures { Told normalized.now words.now sizes.now
        text.now text_starts.now text_ends.now counts.now
        (buffers out.old out_starts.old out_ends.old
        blanked.old left.old fillers.old)
        result
        (buffers out.new out_starts.new out_ends.new
        blanked.new left.new fillers.new) }
{
    let pairs = counts.len();
    copy(text, out, 0);
    copy(text_starts, out_starts, 0);
    copy(text_ends, out_ends, 0);
    blanked[..pairs].copy_from_slice(counts);
    count_words(text, words, sizes, Word::Literal, left);
    count_words(normalized, words, sizes, Word::Filler, fillers);
    Report {
        len: text.len(),
        not_found: zeros(counts),
        left: nonzeros(&left[..pairs]),
        fillers_found: nonzeros(&fillers[..pairs]),
    }
}

// Blanks the literals of all pairs in a note, one after the other, and says what is left of them. It judges, in this
// order: `TooLong`, `LengthMismatch`, `IllFormed`, `Misaligned`, `NoRoom`.
pub fn redact_all(
    note: &NormalizedString,
    words: &[u8],
    sizes: &[u32],
    out: &mut [u8],
    out_starts: &mut [Offset],
    out_ends: &mut [Offset],
    blanked: &mut [u32],
    left: &mut [u32],
    fillers: &mut [u32],
) -> Result<Report, Refusal>
    ensures { AllRedacted limit
        (passed note.now)
        words.now sizes.now
        (buffers out.old out_starts.old out_ends.old
        blanked.old left.old fillers.old)
        result
        (buffers out.new out_starts.new out_ends.new
        blanked.new left.new fillers.new) }
{
    check_inputs(note, words, sizes)?;
    let mut text = text_buffer();
    let mut text_starts = column_buffer();
    let mut text_ends = column_buffer();
    let mut counts = counts_buffer();
    let Some(size) = take_steps(
        note,
        words,
        sizes,
        &mut text,
        &mut text_starts,
        &mut text_ends,
        &mut counts,
    ) else {
        return Err(Refusal::NoRoom);
    };
    let pairs = sizes.len() / 2;
    if least_room(out.len(), out_starts.len(), out_ends.len()) < size {
        return Err(Refusal::NoRoom);
    }
    if least_room(blanked.len(), left.len(), fillers.len()) < pairs {
        return Err(Refusal::NoRoom);
    }
    Ok(tell(
        note.normalized,
        words,
        sizes,
        &text[..size],
        &text_starts[..size],
        &text_ends[..size],
        &counts[..pairs],
        out,
        out_starts,
        out_ends,
        blanked,
        left,
        fillers,
    ))
}
