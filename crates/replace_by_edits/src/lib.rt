// Replacing by edits (RULES 16; Rust: the call of `transform_range` that a comment in `replace` names): one matched place
// after the other is edited as a range of the cleaned text, from the end of the list to its front.
#![tactic(auto)]

pub mod road;

ghost use Rattle.std.specs.Prelude.{◌≡◌, length};
ghost use Rattle.note.specs.Notes.{limit, passed};
ghost use Rattle.note.specs.Refusals.{verdict};
ghost use Rattle.pattern.specs.Entries.{places_of};
ghost use Rattle.replace.specs.Replacing.{publication};
ghost use Rattle.replace.specs.Sizes.{places_size};
ghost use Rattle.replace_by_edits.specs.ByEdits.{ReplacingByEdits, by_edits_faults, scratch};

use buffers::Offset;
use checks::{least_of_two, least_room};
use note::{NormalizedString, Refusal};
use replace::check_replace;
use road::lay_road;

// What `replace_by_edits` answers for a note, a list and a content beside the room of the buffers and of scratch.
fn check_by_edits(
    note: &NormalizedString,
    list: &[u8],
    content: &[u8],
    room: usize,
    scratch_room: usize,
) -> Result<usize, Refusal>
    ensures { result ≡ publication (verdict (by_edits_faults limit
        (passed note.now)
        list.now content.now room scratch_room))
        (places_size (length content.now) (places_of list.now)) }
{
    let size = check_replace(note, list, content, room)?;
    if scratch_room < note.normalized.len() + size {
        return Err(Refusal::NoRoom);
    }
    Ok(size)
}

// What `replace` publishes, made by edits: text and alignments of the result are in front of the passed buffers. The
// buffers `first` and `second`, with their columns, are scratch.
pub fn replace_by_edits(
    note: &NormalizedString,
    list: &[u8],
    content: &[u8],
    out: &mut [u8],
    out_starts: &mut [Offset],
    out_ends: &mut [Offset],
    first: &mut [u8],
    first_starts: &mut [Offset],
    first_ends: &mut [Offset],
    second: &mut [u8],
    second_starts: &mut [Offset],
    second_ends: &mut [Offset],
) -> Result<usize, Refusal>
    ensures { ReplacingByEdits limit
        (passed note.now)
        list.now content.now
        out.old out_starts.old out_ends.old
        (scratch first.old first_starts.old first_ends.old)
        (scratch second.old second_starts.old second_ends.old)
        result out.new out_starts.new out_ends.new
        (scratch first.new first_starts.new first_ends.new)
        (scratch second.new second_starts.new second_ends.new) }
{
    let NormalizedString {
        normalized,
        starts,
        ends,
        ..
    } = *note;
    let room = least_room(out.len(), out_starts.len(), out_ends.len());
    let scratch_room = least_of_two(
        least_room(first.len(), first_starts.len(), first_ends.len()),
        least_room(second.len(), second_starts.len(), second_ends.len()),
    );
    check_by_edits(note, list, content, room, scratch_room)?;
    Ok(lay_road(
        normalized,
        starts,
        ends,
        list,
        content,
        out,
        out_starts,
        out_ends,
        first,
        first_starts,
        first_ends,
        second,
        second_starts,
        second_ends,
    ))
}
