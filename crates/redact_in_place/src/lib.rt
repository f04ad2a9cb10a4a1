// Blanking in place, so that literals are blanked one after the other: each in what the one before left.
#![tactic(auto)]

ghost use Rattle.std.specs.Prelude.{◌≡◌, length, ◌+◌, ◌*◌};
ghost use Rattle.note.specs.Notes.{limit};
ghost use Rattle.pattern.specs.Encoding.{room_for};
ghost use Rattle.redact_in_place.specs.InPlace.{Held, InPlace};

use buffers::{Offset, copy};
use note::{LIMIT, NormalizedString, Refusal};
use pattern::MAX_PLACE_LEN;
use redact_note::redact_note;

// The longest list of a literal's matches: one place for each match, one before each, and one after the last (RULES 9.6).
const LIST: usize = MAX_PLACE_LEN * (2 * LIMIT + 1);

// Room for the longest text.
pub fn text_buffer() -> [u8; LIMIT]
    ensures { limit ≡ length result }
{
    [0; LIMIT]
}

// Room for a column of the longest text.
pub fn column_buffer() -> [Offset; LIMIT]
    ensures { limit ≡ length result }
{
    [0; LIMIT]
}

// Room for the list of any literal's matches.
fn list_buffer() -> [u8; LIST]
    ensures { room_for (2 * limit + 1) ≡ length result }
{
    zeroed()
}

// So many zeros. The prover reads their number, and never computes the list.
fn zeroed<const N: usize>() -> [u8; N]
    ensures { length result ≡ N }
{
    [0; N]
}

// Blanks every match of the literal in the note of the first `size` bytes of `text` and alignments of `starts` and
// `ends`: what is published is there afterwards. A refusal leaves all three.
// An inner function: the three buffers have the limit's length.
pub fn redact_in_place(
    original: &[u8],
    original_shift: u32,
    size: usize,
    literal: &[u8],
    content: &[u8],
    text: &mut [u8],
    starts: &mut [Offset],
    ends: &mut [Offset],
) -> Result<(usize, usize), Refusal>
    requires { Held size text.old starts.old ends.old }
    ensures { InPlace original.now original_shift size literal.now content.now
        text.old starts.old ends.old
        result text.new starts.new ends.new }
{
    let mut list = list_buffer();
    let mut out = text_buffer();
    let mut out_starts = column_buffer();
    let mut out_ends = column_buffer();
    let (n, count) = redact_note(
        &NormalizedString {
            original,
            normalized: &text[..size],
            starts: &starts[..size],
            ends: &ends[..size],
            original_shift,
        },
        literal,
        content,
        &mut list,
        &mut out,
        &mut out_starts,
        &mut out_ends,
    )?;
    copy(&out[..n], text, 0);
    copy(&out_starts[..n], starts, 0);
    copy(&out_ends[..n], ends, 0);
    Ok((n, count))
}
