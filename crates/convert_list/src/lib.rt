// Converting a list of ranges over one note (RULES 15.3), which is checked once.
#![tactic(auto)]

ghost use Rattle.std.specs.Prelude.{◌≡◌, true, ◌-◌, ◌≤◌, ◌<◌, length, get_or};
ghost use Rattle.note.specs.Notes.{limit, passed};
ghost use Rattle.convert.specs.Converting.{converted, end_in, number_in, start_in};
ghost use Rattle.convert.specs.Blocks.{OrderedColumns};
ghost use Rattle.convert_list.specs.ConvertList.{answer_at, ConvertedList};
ghost use Rattle.convert_list.specs.TwoReads.{AnswerRoom, AnsweredBetween, AnswersWritten, RangesBetween};
ghost use Rattle.convert_list.specs.TwoReads.{BlockRead, expandable, Expanding, expands, Readable};

use buffers::{Offset, fill};
use checks::{check_note, least_of_two, least_room};
use convert::{OffsetReferential, Range, convert_checked, end_of, range_of, start_of};
use note::verdicts::{earlier, refused_if};
use note::{NormalizedString, Refusal};

// An answer's three numbers.
fn start_in(answer: Result<Range, Refusal>) -> u32
    ensures { result ≡ start_in answer }
{
    match answer {
        Ok(range) => start_of(range),
        Err(_) => 0,
    }
}

fn end_in(answer: Result<Range, Refusal>) -> u32
    ensures { result ≡ end_in answer }
{
    match answer {
        Ok(range) => end_of(range),
        Err(_) => 0,
    }
}

fn number_in(answer: Result<Range, Refusal>) -> u8
    ensures { result ≡ number_in answer }
{
    match answer {
        Ok(_) => 0,
        Err(k) => u32::from(k) as u8,
    }
}

// Of so many bytes of the cleaned text, those whose ranges are read; none where ranges are of the transcript.
fn expandable(side: OffsetReferential, len: usize) -> usize
    ensures { result ≡ expandable side len }
{
    match side {
        OffsetReferential::Original => 0,
        OffsetReferential::Normalized => len,
    }
}

// Whether a range of the cleaned text has a byte and ends in it, as nearly all of a list do: its answer is two reads.
fn expands(from: u32, to: u32, len: u32) -> bool
    ensures { result ≡ expands from to len }
{
    (from < to) & (to <= len)
}

// Whether each range of a block does.
fn all_expand(from: &[u32], to: &[u32], len: u32) -> bool
    requires { length from.now ≤ length to.now }
    ensures { result ≡ true → Expanding from.now to.now len }
{
    let mut ok = true;
    for i in 0..from.len() {
        ok = ok & expands(from[i], to[i], len);
    }
    ok
}

// Where the first byte of such a range starts, and where its last one ends.
fn first_start(starts: &[Offset], from: u32) -> u32
    requires { from < length starts.now }
    ensures { result ≡ get_or starts.now from 0 }
{
    starts[from as usize] as u32
}

fn last_end(ends: &[Offset], to: u32) -> u32
    requires { (0 < to) × (to ≤ length ends.now) }
    ensures { result ≡ get_or ends.now (to - 1) 0 }
{
    ends[to as usize - 1] as u32
}

// Each range of such a block by its two reads; the block's answers stand from `at` on.
fn expand_block(
    starts: &[Offset],
    ends: &[Offset],
    from: &[u32],
    to: &[u32],
    at: usize,
    out_starts: &mut [u32],
    out_ends: &mut [u32],
)
    requires { Readable starts.now ends.now from.now to.now at out_starts.old out_ends.old }
    ensures { BlockRead starts.now ends.now from.now to.now at
        out_starts.old out_ends.old
        out_starts.new out_ends.new }
{
    for i in 0..from.len() {
        out_starts[at + i] = first_start(starts, from[i]);
        out_ends[at + i] = last_end(ends, to[i]);
    }
}

// Any ranges, one after the other. The numbers are 0 from the beginning, so that two stores are left of most answers.
fn convert_between(
    starts: &[Offset],
    ends: &[Offset],
    side: OffsetReferential,
    from: &[u32],
    to: &[u32],
    at: usize,
    past: usize,
    numbers: &mut [u8],
    out_starts: &mut [u32],
    out_ends: &mut [u32],
)
    requires ordered_columns { OrderedColumns limit starts.now ends.now }
    requires ranges_between { RangesBetween from.now to.now at past numbers.old out_starts.old out_ends.old }
    ensures { AnsweredBetween
        (answer_at (converted starts.now ends.now) side from.now to.now)
        at past numbers.old out_starts.old out_ends.old
        numbers.new out_starts.new out_ends.new }
{
    let len = expandable(side, ends.len()) as u32;
    for i in at..past {
        let a = from[i];
        let b = to[i];
        if expands(a, b, len) {
            out_starts[i] = first_start(starts, a);
            out_ends[i] = last_end(ends, b);
        } else {
            let answer = convert_checked(starts, ends, range_of(side, a, b));
            numbers[i] = number_in(answer);
            out_starts[i] = start_in(answer);
            out_ends[i] = end_in(answer);
        }
    }
}

// Every range of the list, on a checked note and with room for the answers: 64 are tested first, without a branch
// inside, and then read without a test.
fn convert_each(
    starts: &[Offset],
    ends: &[Offset],
    side: OffsetReferential,
    from: &[u32],
    to: &[u32],
    numbers: &mut [u8],
    out_starts: &mut [u32],
    out_ends: &mut [u32],
)
    requires ordered_columns { OrderedColumns limit starts.now ends.now }
    requires answer_room { AnswerRoom from.now to.now numbers.old out_starts.old out_ends.old }
    ensures { AnswersWritten
        (answer_at (converted starts.now ends.now) side from.now to.now)
        (length from.now) numbers.old out_starts.old out_ends.old
        numbers.new out_starts.new out_ends.new }
{
    fill(0, from.len(), numbers, 0);
    let len = expandable(side, ends.len()) as u32;
    for k in 0..from.len().div_ceil(64) {
        let i = 64 * k;
        let past = least_of_two(from.len(), i + 64);
        if all_expand(&from[i..past], &to[i..past], len) {
            expand_block(
                starts,
                ends,
                &from[i..past],
                &to[i..past],
                i,
                out_starts,
                out_ends,
            );
        } else {
            convert_between(
                starts, ends, side, from, to, i, past, numbers, out_starts, out_ends,
            );
        }
    }
}

// Each range start..end of the list is answered as `convert_offsets` answers it, in three numbers: 0, start and end, or
// its refusal's number, 0 and 0. Refusals: those of a note and, beside them, `LengthMismatch` where the list has not as
// many ends as starts; then `NoRoom`.
pub fn convert_list(
    note: &NormalizedString,
    side: OffsetReferential,
    from: &[u32],
    to: &[u32],
    numbers: &mut [u8],
    out_starts: &mut [u32],
    out_ends: &mut [u32],
) -> Result<(), Refusal>
    ensures { ConvertedList limit
        (passed note.now) side from.now to.now
        numbers.old out_starts.old out_ends.old result
        numbers.new out_starts.new out_ends.new }
{
    let NormalizedString { starts, ends, .. } = *note;
    let checked = check_note(note);
    let unpaired = refused_if(from.len() != to.len(), Refusal::LengthMismatch);
    earlier(checked, unpaired)?;
    if least_room(numbers.len(), out_starts.len(), out_ends.len()) < from.len() {
        return Err(Refusal::NoRoom);
    }
    convert_each(starts, ends, side, from, to, numbers, out_starts, out_ends);
    Ok(())
}
