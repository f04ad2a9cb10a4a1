// Mapping (RULES 8; Rust: `map`): a code point for each cleaned character.
ghost use Rattle.std.specs.Prelude.{◌≡◌, ltb, length};
ghost use Rattle.note.specs.Notes.{passed};
ghost use Rattle.edits.specs.Plain.{widthless};
ghost use Rattle.edits.specs.Whole.{MapCall};

use buffers::Offset;
use checks::{check_note, least_of_two, least_room};
use code_points::judge;
use map_columns::lay_codes;
use note::{LIMIT, NormalizedByte, NormalizedString, Refusal};
use utf8::count::count_leads;

// Whether the note has a head: its first alignment has no width. An inner function: there is an end for each start.
pub fn has_head(starts: &[Offset], ends: &[Offset]) -> bool
    requires { length starts.now ≡ length ends.now }
    ensures { result ≡ ltb 0 (widthless starts.now ends.now) }
{
    if starts.len() == 0 {
        return false;
    }
    starts[0] == ends[0]
}

// Rust: `map`. Refusals: those of a note, 6 for a code point that is no scalar value, 11 for another number of them
// than cleaned characters, then the edit's.
pub fn map(
    note: &NormalizedString,
    codes: &[u32],
    out: &mut [u8],
    out_starts: &mut [Offset],
    out_ends: &mut [Offset],
) -> Result<usize, Refusal>
    ensures { MapCall
        (passed note.now)
        codes.now
        out.old out_starts.old out_ends.old
        result out.new out_starts.new out_ends.new }
{
    let NormalizedString {
        normalized,
        starts,
        ends,
        ..
    } = *note;
    check_note(note)?;
    let judged = judge(codes);
    if !judged.scalar {
        return Err(Refusal::BadScript);
    }
    if codes.len() != count_leads(normalized) {
        return Err(Refusal::CountMismatch);
    }
    if has_head(starts, ends) {
        return Err(Refusal::Exhausted);
    }
    let room = least_of_two(
        LIMIT,
        least_room(out.len(), out_starts.len(), out_ends.len()),
    );
    if room < judged.size {
        return Err(Refusal::NoRoom);
    }
    let laid = lay_codes(
        normalized,
        starts,
        ends,
        NormalizedByte(0),
        codes,
        out,
        out_starts,
        out_ends,
        0,
        judged.size,
    );
    Ok(laid.written)
}
