// What every call on a passed note, a passed text or passed buffers judges first (RULES 2).
#![tactic(auto)]

ghost use Rattle.std.specs.Prelude.{◌≡◌, true, ◌&&◌, min};
ghost use Rattle.utf8.specs.Formed.{well_formed};
ghost use Rattle.validity.specs.Texts.{ascii};
ghost use Rattle.note.specs.Notes.{passed, limit};
ghost use Rattle.note.specs.Faults.{note_faults, string_faults, text_faults};
ghost use Rattle.note.specs.Refusals.{least, verdict};
ghost use Rattle.checks.specs.Lengths.{lengths_fit, lengths_paired};

use aligned::aligned;
use buffers::Offset;
use buffers::equality::same;
use note::verdicts::refused_if;
use note::{LIMIT, NormalizedString, Refusal};
use validity::{is_ascii, well_formed};

// Whether the lengths of two texts and a shift are within the limit.
fn lengths_fit(original: usize, normalized: usize, original_shift: u32) -> bool
    ensures { result ≡ lengths_fit limit original normalized original_shift }
{
    if LIMIT < original {
        return false;
    }
    if LIMIT < normalized {
        return false;
    }
    original_shift as usize <= LIMIT - original
}

// Whether there is a start and an end for each byte.
fn lengths_paired(normalized: usize, starts: usize, ends: usize) -> bool
    ensures { result ≡ lengths_paired normalized starts ends }
{
    (starts == normalized) & (ends == normalized)
}

// Whether a text is well-formed, by whether it is ASCII, which was told before.
fn formed(text: &[u8], plain: bool) -> bool
    requires { plain ≡ ascii text.now }
    ensures { result ≡ well_formed text.now }
{
    if plain {
        return true;
    }
    well_formed(text)
}

// Whether both texts are well-formed. Where they are the same, one is judged. An inner function: `plain` was told of
// the transcript, and `same` of the two texts.
fn texts_formed(original: &[u8], normalized: &[u8], plain: bool, same: bool) -> bool
    requires plain_value { plain ≡ ascii original.now }
    requires original_value { same ≡ true → original.now ≡ normalized.now }
    ensures { result ≡ (well_formed original.now && well_formed normalized.now) }
{
    if !formed(original, plain) {
        return false;
    }
    if same {
        return true;
    }
    well_formed(normalized)
}

// Whether a passed note is refused.
pub fn check_note(note: &NormalizedString) -> Result<(), Refusal>
    ensures { result ≡ verdict (note_faults limit (passed note.now)) }
{
    let NormalizedString {
        original,
        normalized,
        starts,
        ends,
        original_shift,
    } = *note;
    if !lengths_fit(original.len(), normalized.len(), original_shift) {
        return Err(Refusal::TooLong);
    }
    if !lengths_paired(normalized.len(), starts.len(), ends.len()) {
        return Err(Refusal::LengthMismatch);
    }
    let plain = is_ascii(original);
    let same = same(original, normalized);
    if !texts_formed(original, normalized, plain, same) {
        return Err(Refusal::IllFormed);
    }
    refused_if(
        !aligned(original, normalized, starts, ends, plain, same),
        Refusal::Misaligned,
    )
}

// Whether a text that is passed alone is refused.
pub fn check_text(text: &[u8]) -> Result<(), Refusal>
    ensures { result ≡ verdict (text_faults limit text.now) }
{
    if LIMIT < text.len() {
        return Err(Refusal::TooLong);
    }
    refused_if(!well_formed(text), Refusal::IllFormed)
}

// Whether another string of the call is refused.
pub fn check_string(string: &[u8]) -> Result<(), Refusal>
    ensures { result ≡ verdict (string_faults string.now) }
{
    refused_if(!well_formed(string), Refusal::IllFormed)
}

// The room that two passed buffers have for one size.
pub fn least_of_two(a: usize, b: usize) -> usize
    ensures { result ≡ min a b }
{
    if b < a {
        return b;
    }
    a
}

// The room that three passed buffers have for one size.
pub fn least_room(a: usize, b: usize, c: usize) -> usize
    ensures { result ≡ least a b c }
{
    least_of_two(a, least_of_two(b, c))
}
