// Filtering (RULES 8; Rust: `filter`): a flag for each cleaned character, 0 drops it.
#![tactic(auto)]

ghost use Rattle.std.specs.Prelude.{◌≡◌, length};
ghost use Rattle.utf8.specs.Chars.{chars};
ghost use Rattle.note.specs.Notes.{limit, passed};
ghost use Rattle.edit_steps.specs.Laying.{CommandsLaid, Editable, EditLaid};
ghost use Rattle.transform.specs.Transforming.{TextCall};
ghost use Rattle.edit_steps.specs.Walking.{measured};
ghost use Rattle.edits.specs.Whole.{FilterCall};
ghost use Rattle.filters.specs.Flags.{first_kept, FilterRoom, flag_edit, FlagLaid, FlagRoom, FlagsReady};
ghost use Rattle.filters.specs.Flags.{FlagsRoom, flag_commands, RangeReady, flag_starves};

use buffers::parts::keep;
use buffers::{Offset, copy, fill};
use checks::{check_note, least_of_two, least_room};
use convert::{Range, as_normalized, end_of, start_of};
use edit_steps::walking::skip;
use filter_blocks::{all_kept, is_whole, kept_end, kept_len, lay_kept};
use note::{LIMIT, NormalizedByte, NormalizedString, OriginalByte, Refusal};
use transform::edit;
use utf8::count::count_leads;
use utf8::is_char_range;
use utf8::lead::char_len;

// Whether a flag keeps its character though none is left at the position.
fn flag_starves(flag: u8, to: NormalizedByte, position: NormalizedByte) -> bool
    ensures { result ≡ flag_starves flag to.0 position.0 }
{
    if flag == 0 {
        return false;
    }
    to.0 <= position.0
}

// The text's characters and the range's go by together, one for each flag.
fn measure_flags(
    text: &[u8],
    to: NormalizedByte,
    from: NormalizedByte,
    flags: &[u8],
) -> Option<usize>
    requires { FlagsReady text.now to.0 from.0 flags.now }
    ensures { result ≡ measured text.now to.0
        (first_kept text.now to.0 from.0 flags.now)
        (flag_commands text.now flags.now) }
{
    let mut q = 0;
    let mut p = from;
    let mut written = 0;
    for flag in flags {
        let size = char_len(text, q);
        if flag_starves(*flag, to, p) {
            return None;
        }
        written += kept_len(*flag, size);
        p = skip(text, to, 1, p);
        q += size;
    }
    Some(written)
}

// The character of `size` bytes at `q`, laid from `at` on with the alignment at `position`, where its flag keeps it;
// how far the buffers reach then.
fn lay_flag(
    flag: u8,
    text: &[u8],
    starts: &[Offset],
    ends: &[Offset],
    q: usize,
    size: usize,
    position: NormalizedByte,
    out: &mut [u8],
    out_starts: &mut [Offset],
    out_ends: &mut [Offset],
    at: usize,
) -> usize
    requires { FlagRoom flag text.now starts.now ends.now q size position.0
        out.old out_starts.old out_ends.old at }
    ensures { FlagLaid flag text.now starts.now ends.now q size position.0
        out.old out_starts.old out_ends.old at
        result out.new out_starts.new out_ends.new }
{
    if flag == 0 {
        return at;
    }
    let p = position.0 as usize;
    copy(&text[q..q + size], out, at);
    fill(starts[p], size, out_starts, at);
    fill(ends[p], size, out_ends, at);
    at + size
}

// Every character that its flag keeps, laid from `at` on; how far they reach.
fn lay_flags(
    text: &[u8],
    starts: &[Offset],
    ends: &[Offset],
    to: NormalizedByte,
    from: NormalizedByte,
    flags: &[u8],
    out: &mut [u8],
    out_starts: &mut [Offset],
    out_ends: &mut [Offset],
    at: usize,
) -> usize
    requires { FlagsRoom text.now starts.now ends.now to.0 from.0 flags.now
        out.old out_starts.old out_ends.old at }
    ensures { CommandsLaid text.now starts.now ends.now to.0
        (first_kept text.now to.0 from.0 flags.now)
        (flag_commands text.now flags.now)
        out.old out_starts.old out_ends.old at
        result out.new out_starts.new out_ends.new }
{
    let mut q = 0;
    let mut p = from;
    let mut written = at;
    for flag in flags {
        let size = char_len(text, q);
        written = lay_flag(
            *flag, text, starts, ends, q, size, p, out, out_starts, out_ends, written,
        );
        p = skip(text, to, 1, p);
        q += size;
    }
    written
}

// What is before the range, what the flags keep, and what is after the range; how many bytes that is.
fn lay_filtered(
    text: &[u8],
    starts: &[Offset],
    ends: &[Offset],
    from: NormalizedByte,
    to: NormalizedByte,
    flags: &[u8],
    out: &mut [u8],
    out_starts: &mut [Offset],
    out_ends: &mut [Offset],
) -> usize
    requires { FilterRoom text.now starts.now ends.now from.0 to.0 flags.now
        out.old out_starts.old out_ends.old }
    ensures { EditLaid text.now starts.now ends.now from.0 to.0
        (first_kept text.now to.0 from.0 flags.now)
        (flag_commands text.now flags.now)
        out.old out_starts.old out_ends.old
        result out.new out_starts.new out_ends.new }
{
    let first = from.0 as usize;
    let end = to.0 as usize;
    keep(text, starts, ends, 0, first, out, out_starts, out_ends, 0);
    let at = lay_flags(
        text, starts, ends, to, from, flags, out, out_starts, out_ends, first,
    );
    keep(
        text,
        starts,
        ends,
        end,
        text.len(),
        out,
        out_starts,
        out_ends,
        at,
    );
    at + (text.len() - end)
}

// A range of the cleaned text made anew by flags; an inner function, for an accepted note and a flag for each
// character.
fn edit_flags(
    text: &[u8],
    starts: &[Offset],
    ends: &[Offset],
    from: NormalizedByte,
    to: NormalizedByte,
    flags: &[u8],
    out: &mut [u8],
    out_starts: &mut [Offset],
    out_ends: &mut [Offset],
) -> Result<usize, Refusal>
    requires { (Editable text.now starts.now ends.now) × (length flags.now ≡ chars text.now) }
    ensures { TextCall limit text.now starts.now ends.now
        (flag_edit text.now from.0 to.0 flags.now)
        out.old out_starts.old out_ends.old
        result out.new out_starts.new out_ends.new }
{
    let first = from.0 as usize;
    let end = to.0 as usize;
    if !is_char_range(text, first, end) {
        return Err(Refusal::NotBoundary);
    }
    let Some(size) = measure_flags(text, to, from, flags) else {
        return Err(Refusal::Exhausted);
    };
    let room = least_of_two(
        LIMIT,
        least_room(out.len(), out_starts.len(), out_ends.len()),
    );
    let kept = first + (text.len() - end);
    if room < kept {
        return Err(Refusal::NoRoom);
    }
    if room - kept < size {
        return Err(Refusal::NoRoom);
    }
    Ok(lay_filtered(
        text, starts, ends, from, to, flags, out, out_starts, out_ends,
    ))
}

// A range made anew by flags, where the bytes of each character carry one alignment: the whole text is filtered byte by
// byte, or copied where nothing is dropped.
fn filter_range(
    text: &[u8],
    starts: &[Offset],
    ends: &[Offset],
    from: NormalizedByte,
    to: NormalizedByte,
    flags: &[u8],
    out: &mut [u8],
    out_starts: &mut [Offset],
    out_ends: &mut [Offset],
) -> Result<usize, Refusal>
    requires { RangeReady text.now starts.now ends.now flags.now }
    ensures { TextCall limit text.now starts.now ends.now
        (flag_edit text.now from.0 to.0 flags.now)
        out.old out_starts.old out_ends.old
        result out.new out_starts.new out_ends.new }
{
    let room = least_room(out.len(), out_starts.len(), out_ends.len());
    if is_whole(from, to, text.len(), room) {
        if all_kept(flags) {
            keep(
                text,
                starts,
                ends,
                0,
                text.len(),
                out,
                out_starts,
                out_ends,
                0,
            );
            return Ok(text.len());
        }
        let end = kept_end(text, flags);
        return Ok(lay_kept(text, starts, ends, flags, end, out, out_starts, out_ends));
    }
    edit_flags(
        text, starts, ends, from, to, flags, out, out_starts, out_ends,
    )
}

// Rust: `filter`. Refusals: those of a note, 11 for another number of flags than cleaned characters, then the edit's.
pub fn filter(
    note: &NormalizedString,
    flags: &[u8],
    out: &mut [u8],
    out_starts: &mut [Offset],
    out_ends: &mut [Offset],
) -> Result<usize, Refusal>
    ensures { FilterCall
        (passed note.now)
        flags.now
        out.old out_starts.old out_ends.old
        result out.new out_starts.new out_ends.new }
{
    let NormalizedString {
        original,
        normalized,
        starts,
        ends,
        ..
    } = *note;
    check_note(note)?;
    if flags.len() != count_leads(normalized) {
        return Err(Refusal::CountMismatch);
    }
    match as_normalized(
        starts,
        ends,
        Range::Original(OriginalByte(0), OriginalByte(original.len() as u32)),
    ) {
        Ok(found) => filter_range(
            normalized,
            starts,
            ends,
            NormalizedByte(start_of(found)),
            NormalizedByte(end_of(found)),
            flags,
            out,
            out_starts,
            out_ends,
        ),
        Err(_) => edit(
            normalized,
            starts,
            ends,
            NormalizedByte(0),
            NormalizedByte(0),
            0,
            &flags[..0],
            out,
            out_starts,
            out_ends,
        ),
    }
}
