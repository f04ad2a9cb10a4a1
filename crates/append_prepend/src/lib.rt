// A string after the cleaned text and before it (RULES 8; Rust: `append`, `prepend`).
#![tactic(auto)]

ghost use Rattle.std.specs.Prelude.{◌≡◌, ◌+◌, ◌≤◌, leb, ◌++◌, length, drop, replicate};
ghost use Rattle.buffers.specs.Splice.{overlay};
ghost use Rattle.note.specs.Notes.{passed};
ghost use Rattle.edits.specs.Whole.{AppendCall, PrependCall};
ghost use Rattle.append_prepend.specs.Joining.{front_of};
ghost use Rattle.append_prepend.specs.Laying.{AppendedLaid, FrontRoom, JoinRoom, PrependedLaid, PrependRoom};

use buffers::parts::keep;
use buffers::{Offset, copy, fill};
use checks::{check_note, check_string, least_of_two, least_room};
use note::verdicts::earlier;
use note::{LIMIT, NormalizedString, Refusal, before_end};
use utf8::lead::announced_length;

// Whether two lengths together fit a room.
fn has_room(kept: usize, more: usize, room: usize) -> bool
    ensures { result ≡ leb (kept + more) room }
{
    if room < kept {
        return false;
    }
    more <= room - kept
}

// The text, and the string after it with the alignment of the text's last byte; how many bytes that is.
fn lay_append(
    text: &[u8],
    starts: &[Offset],
    ends: &[Offset],
    string: &[u8],
    out: &mut [u8],
    out_starts: &mut [Offset],
    out_ends: &mut [Offset],
) -> usize
    requires { JoinRoom text.now starts.now ends.now string.now
        out.old out_starts.old out_ends.old }
    ensures { AppendedLaid text.now starts.now ends.now string.now
        out.old out_starts.old out_ends.old
        result out.new out_starts.new out_ends.new }
{
    let at = text.len();
    let more = string.len();
    keep(text, starts, ends, 0, at, out, out_starts, out_ends, 0);
    copy(string, out, at);
    fill(before_end(starts, at), more, out_starts, at);
    fill(before_end(ends, at), more, out_ends, at);
    at + more
}

// Rust: `append`. Refusals: those of a note, 1 for a string that is not well-formed, then the edit's.
pub fn append(
    note: &NormalizedString,
    string: &[u8],
    out: &mut [u8],
    out_starts: &mut [Offset],
    out_ends: &mut [Offset],
) -> Result<usize, Refusal>
    ensures { AppendCall
        (passed note.now)
        string.now
        out.old out_starts.old out_ends.old
        result out.new out_starts.new out_ends.new }
{
    let NormalizedString {
        normalized,
        starts,
        ends,
        ..
    } = *note;
    let noted = check_note(note);
    earlier(noted, check_string(string))?;
    let room = least_of_two(
        LIMIT,
        least_room(out.len(), out_starts.len(), out_ends.len()),
    );
    if !has_room(normalized.len(), string.len(), room) {
        return Err(Refusal::NoRoom);
    }
    Ok(lay_append(normalized, starts, ends, string, out, out_starts, out_ends))
}

// What the text's first character carries of a column after the string.
#[tactic(auto, unfolding(crate::specs::Joining::front_of))]
fn front_of(string: &[u8], column: &[Offset]) -> Offset
    requires { 1 ≤ length column.now }
    ensures { result ≡ front_of string.now column.now }
{
    if string.len() == 0 {
        return 0;
    }
    column[0]
}

// A column after `count` times what the first character carries, which stand for that character's `size` bytes too.
fn lay_column(front: Offset, count: usize, column: &[Offset], size: usize, out: &mut [Offset])
    requires { FrontRoom count column.now size out.old }
    ensures { out.new ≡ overlay (replicate (count + size) front ++ drop size column.now)
        out.old }
{
    fill(front, count + size, out, 0);
    copy(&column[size..column.len()], out, count + size);
}

// The string, and the text after it; how many bytes that is.
fn lay_prepend(
    text: &[u8],
    starts: &[Offset],
    ends: &[Offset],
    string: &[u8],
    out: &mut [u8],
    out_starts: &mut [Offset],
    out_ends: &mut [Offset],
) -> usize
    requires { PrependRoom text.now starts.now ends.now string.now
        out.old out_starts.old out_ends.old }
    ensures { PrependedLaid text.now starts.now ends.now string.now
        out.old out_starts.old out_ends.old
        result out.new out_starts.new out_ends.new }
{
    let size = announced_length(text[0]) as usize;
    let more = string.len();
    copy(string, out, 0);
    copy(text, out, more);
    lay_column(front_of(string, starts), more, starts, size, out_starts);
    lay_column(front_of(string, ends), more, ends, size, out_ends);
    more + text.len()
}

// Rust: `prepend`. Refusals: those of a note, 1 for a string that is not well-formed, then the edit's.
pub fn prepend(
    note: &NormalizedString,
    string: &[u8],
    out: &mut [u8],
    out_starts: &mut [Offset],
    out_ends: &mut [Offset],
) -> Result<usize, Refusal>
    ensures { PrependCall
        (passed note.now)
        string.now
        out.old out_starts.old out_ends.old
        result out.new out_starts.new out_ends.new }
{
    let NormalizedString {
        normalized,
        starts,
        ends,
        ..
    } = *note;
    let noted = check_note(note);
    earlier(noted, check_string(string))?;
    if normalized.len() == 0 {
        return Ok(0);
    }
    let room = least_of_two(
        LIMIT,
        least_room(out.len(), out_starts.len(), out_ends.len()),
    );
    if !has_room(normalized.len(), string.len(), room) {
        return Err(Refusal::NoRoom);
    }
    Ok(lay_prepend(normalized, starts, ends, string, out, out_starts, out_ends))
}
