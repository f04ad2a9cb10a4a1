// Replacing (RULES 10; Rust: `NormalizedString::replace`): matched places of the cleaned text give way to the content,
// the filler.
#![tactic(auto)]

pub mod laying;

ghost use Rattle.std.specs.Prelude.{◌≡◌, ◌+◌, min, length};
ghost use Rattle.note.specs.Faults.{room_faults};
ghost use Rattle.note.specs.Notes.{limit, passed};
ghost use Rattle.note.specs.Refusals.{also, verdict};
ghost use Rattle.pattern.specs.Entries.{places_of};
ghost use Rattle.pattern.specs.Places.{list_faults};
ghost use Rattle.replace.specs.Replacing.{Replacing, publication, replace_faults};
ghost use Rattle.replace.specs.Sizes.{place_size, places_size};

use buffers::Offset;
use checks::{check_note, check_string, least_of_two, least_room};
use laying::lay_out;
use note::verdicts::earlier;
use note::{LIMIT, NormalizedString, Refusal};
use pattern::{Place, covers, entry_at};

// How many bytes a place gives beside a content of `content_len` bytes.
fn place_size(place: Place, content_len: usize) -> usize
    ensures { result ≡ place_size content_len place }
{
    let start = place.start;
    let end = place.end;
    if place.matched {
        return content_len;
    }
    if end.0 < start.0 {
        return 0;
    }
    (end.0 - start.0) as usize
}

// How many bytes the places of a list give beside a content of `content_len` bytes; one more than the limit where they
// are more.
pub fn result_len(list: &[u8], content_len: usize) -> usize
    ensures { result ≡ min (limit + 1) (places_size content_len (places_of list.now)) }
{
    let mut total: usize = 0;
    let mut i = 0;
    while i < list.len() {
        let Some((place, next)) = entry_at(list, i) else {
            return total;
        };
        let size = place_size(place, content_len);
        if LIMIT - total < size {
            return LIMIT + 1;
        }
        total += size;
        i = next;
    }
    total
}

// Whether a list covers the text and its result fits the given room; how many bytes that is.
fn check_list(text: &[u8], list: &[u8], content_len: usize, room: usize) -> Result<usize, Refusal>
    ensures { result ≡ publication (verdict (also (list_faults text.now list.now)
        (room_faults (places_size content_len (places_of list.now)) (min limit room))))
        (places_size content_len (places_of list.now)) }
{
    if !covers(text, list) {
        return Err(Refusal::BadMatches);
    }
    let size = result_len(list, content_len);
    if least_of_two(LIMIT, room) < size {
        return Err(Refusal::NoRoom);
    }
    Ok(size)
}

// What `replace` answers for a note, a list and a content beside the given room.
pub fn check_replace(
    note: &NormalizedString,
    list: &[u8],
    content: &[u8],
    room: usize,
) -> Result<usize, Refusal>
    ensures { result ≡ publication (verdict (replace_faults limit
        (passed note.now)
        list.now content.now room))
        (places_size (length content.now) (places_of list.now)) }
{
    let noted = check_note(note);
    earlier(noted, check_string(content))?;
    check_list(note.normalized, list, content.len(), room)
}

// Matched places of the cleaned text give way to the content: text and alignments of the result are in front of the
// passed buffers.
pub fn replace(
    note: &NormalizedString,
    list: &[u8],
    content: &[u8],
    out: &mut [u8],
    out_starts: &mut [Offset],
    out_ends: &mut [Offset],
) -> Result<usize, Refusal>
    ensures { Replacing limit
        (passed note.now)
        list.now content.now
        out.old out_starts.old out_ends.old
        result out.new out_starts.new out_ends.new }
{
    let NormalizedString {
        normalized,
        starts,
        ends,
        ..
    } = *note;
    let room = least_room(out.len(), out_starts.len(), out_ends.len());
    let size = check_replace(note, list, content, room)?;
    Ok(lay_out(
        normalized, starts, ends, list, content, size, out, out_starts, out_ends,
    ))
}
