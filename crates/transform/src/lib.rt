// Editing (RULES 7; Rust: `transform_range`, `transform`): a script makes a range of the cleaned text anew.
#![tactic(auto)]

ghost use Rattle.note.specs.Notes.{limit, passed};
ghost use Rattle.script.specs.Scripts.{commands_of};
ghost use Rattle.edit_steps.specs.Laying.{Editable};
ghost use Rattle.transform.specs.Transforming.{TextCall, TransformCall, whole_original};

use buffers::Offset;
use checks::{check_note, least_of_two, least_room};
use convert::{Range, as_normalized, end_of, start_of};
use edit_steps::laying::lay_edit;
use edit_steps::walking::{measure, skip};
use note::{LIMIT, NormalizedByte, NormalizedString, OriginalByte, Refusal};
use script::whole;
use utf8::is_char_range;

// A range of the cleaned text made anew by a script; an inner function, for an accepted note and a whole script.
pub fn edit(
    text: &[u8],
    starts: &[Offset],
    ends: &[Offset],
    from: NormalizedByte,
    to: NormalizedByte,
    initial_offset: usize,
    script: &[u8],
    out: &mut [u8],
    out_starts: &mut [Offset],
    out_ends: &mut [Offset],
) -> Result<usize, Refusal>
    requires { Editable text.now starts.now ends.now }
    ensures { TextCall limit text.now starts.now ends.now
        (record { from = from.0; to = to.0; skip = initial_offset; commands = commands_of script.now })
        out.old out_starts.old out_ends.old
        result out.new out_starts.new out_ends.new }
{
    let first = from.0 as usize;
    let end = to.0 as usize;
    if !is_char_range(text, first, end) {
        return Err(Refusal::NotBoundary);
    }
    let position = skip(text, to, initial_offset, from);
    let Some(size) = measure(text, to, position, script) else {
        return Err(Refusal::Exhausted);
    };
    let room = least_of_two(
        LIMIT,
        least_room(out.len(), out_starts.len(), out_ends.len()),
    );
    let kept = first + (text.len() - end);
    if room < kept {
        return Err(Refusal::NoRoom);
    }
    if room - kept < size {
        return Err(Refusal::NoRoom);
    }
    Ok(lay_edit(
        text, starts, ends, from, to, position, script, out, out_starts, out_ends, size,
    ))
}

// Rust: `transform_range`. Refusals: those of a note, the script's, then the edit's.
pub fn transform_range(
    note: &NormalizedString,
    range: Range,
    script: &[u8],
    initial_offset: u32,
    out: &mut [u8],
    out_starts: &mut [Offset],
    out_ends: &mut [Offset],
) -> Result<usize, Refusal>
    ensures { TransformCall
        (passed note.now)
        range script.now initial_offset
        out.old out_starts.old out_ends.old
        result out.new out_starts.new out_ends.new }
{
    let NormalizedString {
        normalized,
        starts,
        ends,
        ..
    } = *note;
    check_note(note)?;
    if !whole(script) {
        return Err(Refusal::BadScript);
    }
    match as_normalized(starts, ends, range) {
        Ok(found) => edit(
            normalized,
            starts,
            ends,
            NormalizedByte(start_of(found)),
            NormalizedByte(end_of(found)),
            initial_offset as usize,
            script,
            out,
            out_starts,
            out_ends,
        ),
        Err(_) => edit(
            normalized,
            starts,
            ends,
            NormalizedByte(0),
            NormalizedByte(0),
            0,
            &script[..0],
            out,
            out_starts,
            out_ends,
        ),
    }
}

// Rust: `transform`: the range is the whole transcript.
pub fn transform(
    note: &NormalizedString,
    script: &[u8],
    initial_offset: u32,
    out: &mut [u8],
    out_starts: &mut [Offset],
    out_ends: &mut [Offset],
) -> Result<usize, Refusal>
    ensures { TransformCall
        (passed note.now)
        (whole_original note.now.original.now) script.now initial_offset
        out.old out_starts.old out_ends.old
        result out.new out_starts.new out_ends.new }
{
    if LIMIT < note.original.len() {
        return Err(Refusal::TooLong);
    }
    transform_range(
        note,
        Range::Original(OriginalByte(0), OriginalByte(note.original.len() as u32)),
        script,
        initial_offset,
        out,
        out_starts,
        out_ends,
    )
}
