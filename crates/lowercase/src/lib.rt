// Lowercase for Latin notes (RULES 8.8; Rust: `lowercase`).
#![tactic(auto)]

pub mod dotted;
pub mod table;
pub mod text;

ghost use Rattle.note.specs.Notes.{passed};
ghost use Rattle.lowercase.specs.Lowering.{LowercaseCall};

use buffers::Offset;
use checks::{check_note, least_of_two, least_room};
use dotted::{count_dotted, lay_column};
use edits::mapping::has_head;
use note::{LIMIT, NormalizedString, Refusal};
use table::lowercase_table;
use text::lay_text;

// Rust: `lowercase`. Refusals: those of a note, then the edit's.
pub fn lowercase(
    note: &NormalizedString,
    out: &mut [u8],
    out_starts: &mut [Offset],
    out_ends: &mut [Offset],
) -> Result<usize, Refusal>
    ensures { LowercaseCall
        (passed note.now)
        out.old out_starts.old out_ends.old
        result out.new out_starts.new out_ends.new }
{
    let NormalizedString {
        normalized,
        starts,
        ends,
        ..
    } = *note;
    check_note(note)?;
    if has_head(starts, ends) {
        return Err(Refusal::Exhausted);
    }
    let size = normalized.len() + count_dotted(normalized);
    let room = least_of_two(
        LIMIT,
        least_room(out.len(), out_starts.len(), out_ends.len()),
    );
    if room < size {
        return Err(Refusal::NoRoom);
    }
    let table = lowercase_table();
    lay_text(normalized, &table, out);
    lay_column(normalized, starts, size, out_starts);
    lay_column(normalized, ends, size, out_ends);
    Ok(size)
}
