// Blanking a literal in a note (RULES 15.8): the matches of the literal in the cleaned text, and the replacement by
// them, in one call. All is judged and counted before the first store, and the note once: a found list covers its text
// (`FoundCovers`), and its size follows from the number of matches.
#![tactic(auto)]

ghost use Rattle.std.specs.Prelude.{◌≡◌, ◌≤◌, leb, length};
ghost use Rattle.note.specs.Notes.{limit, passed};
ghost use Rattle.note.specs.Refusals.{verdict};
ghost use Rattle.find.specs.Matching.{found_places};
ghost use Rattle.find.specs.Searching.{first_match};
ghost use Rattle.redact_note.specs.Redacting.{NoteRedacted, note_input_faults, match_count};
ghost use Rattle.redact_note.specs.Blanks.{NoteBlankable, NoteBlanked, Matched, Searchable};
ghost use Rattle.redact_note.specs.Blanks.{blanked_size, rooms_fit};

use buffers::Offset;
use checks::{check_note, check_string, least_of_two, least_room};
use find::search::{first_match, next_match};
use find::{list_fits, write_list};
use note::verdicts::earlier;
use note::{LIMIT, NormalizedString, Refusal};
use replace::laying::lay_out;
use replace::result_len;

// Whether note, literal or content is refused.
fn check_inputs(note: &NormalizedString, literal: &[u8], content: &[u8]) -> Result<(), Refusal>
    ensures { result ≡ verdict (note_input_faults limit
        (passed note.now)
        literal.now content.now) }
{
    let noted = check_note(note);
    let strings = earlier(check_string(literal), check_string(content));
    earlier(noted, strings)
}

// How many matches there are, from the first one on.
// An inner function: the text is within the limit, and `first` is its first match.
pub fn count_matches(text: &[u8], literal: &[u8], first: usize) -> usize
    requires { (length text.now ≤ limit) × (first ≡ first_match text.now literal.now) }
    ensures { result ≡ match_count (found_places text.now literal.now) }
{
    let mut count = 0;
    let mut p = first;
    while p < text.len() {
        count += 1;
        p = next_match(text, literal, p + literal.len());
    }
    count
}

// Whether so much room holds a text of `size` bytes of which `count` matches of `literal_len` bytes each give way to
// `content_len` bytes each.
fn blanked_fits(
    size: usize,
    count: usize,
    literal_len: usize,
    content_len: usize,
    room: usize,
) -> bool
    requires { Matched size count literal_len × (room ≤ limit) }
    ensures { result ≡ leb (blanked_size size count literal_len content_len) room }
{
    if count == 0 {
        return size <= room;
    }
    if room < content_len {
        return false;
    }
    size - count * literal_len + count * content_len <= room
}

// Whether so much room holds the list of the matches, and so much what is published.
fn rooms_fit(
    text: &[u8],
    literal: &[u8],
    first: usize,
    count: usize,
    content_len: usize,
    list_room: usize,
    room: usize,
) -> bool
    requires { Searchable text.now literal.now first
        × (count ≡ match_count (found_places text.now literal.now)) }
    ensures { result ≡ rooms_fit limit text.now literal.now content_len list_room room }
{
    if !list_fits(text, literal, first, list_room) {
        return false;
    }
    blanked_fits(
        text.len(),
        count,
        literal.len(),
        content_len,
        least_of_two(LIMIT, room),
    )
}

// Every match of the literal blanked, where nothing is refused; how many bytes are published.
fn blank(
    normalized: &[u8],
    starts: &[Offset],
    ends: &[Offset],
    literal: &[u8],
    content: &[u8],
    first: usize,
    list: &mut [u8],
    out: &mut [u8],
    out_starts: &mut [Offset],
    out_ends: &mut [Offset],
) -> usize
    requires { NoteBlankable normalized.now starts.now ends.now literal.now content.now first
        list.old out.old out_starts.old out_ends.old }
    ensures { NoteBlanked normalized.now starts.now ends.now
        literal.now content.now list.old
        out.old out_starts.old out_ends.old
        result list.new out.new out_starts.new out_ends.new }
{
    let n = write_list(normalized, literal, first, list);
    let until = result_len(&list[..n], content.len());
    lay_out(
        normalized,
        starts,
        ends,
        &list[..n],
        content,
        until,
        out,
        out_starts,
        out_ends,
    )
}

// Blanks every match of the literal in the cleaned text of a note: the list of the matches is in front of `list`,
// and what is published in front of `out`, `out_starts` and `out_ends`. It judges, in this order: `TooLong`,
// `LengthMismatch`, `IllFormed` (a text, literal or content), `Misaligned`, `NoRoom`.
pub fn redact_note(
    note: &NormalizedString,
    literal: &[u8],
    content: &[u8],
    list: &mut [u8],
    out: &mut [u8],
    out_starts: &mut [Offset],
    out_ends: &mut [Offset],
) -> Result<(usize, usize), Refusal>
    ensures { NoteRedacted limit
        (passed note.now)
        literal.now content.now list.old
        out.old out_starts.old out_ends.old
        result list.new out.new out_starts.new out_ends.new }
{
    let NormalizedString {
        normalized,
        starts,
        ends,
        ..
    } = *note;
    check_inputs(note, literal, content)?;
    let first = first_match(normalized, literal);
    let count = count_matches(normalized, literal, first);
    let room = least_room(out.len(), out_starts.len(), out_ends.len());
    if !rooms_fit(
        normalized,
        literal,
        first,
        count,
        content.len(),
        list.len(),
        room,
    ) {
        return Err(Refusal::NoRoom);
    }
    let size = blank(
        normalized, starts, ends, literal, content, first, list, out, out_starts, out_ends,
    );
    Ok((size, count))
}
