// Character positions (RULES 12; Rust: `BytesToCharOffsetConverter::convert`): the character that a byte belongs to.
// A walk over the text: from a byte whose character is known, the bytes between that begin a character are counted.
// For a list the walk is made once, and the count at each byte kept.
#![tactic(auto)]

pub mod letters;

ghost use Rattle.std.specs.Prelude.{◌≡◌, ◌≤◌, ◌<◌, length};
ghost use Rattle.note.specs.Notes.{limit};
ghost use Rattle.char_offsets.specs.Positions.{char_offsets, CharOffsetsList, index_of};
ghost use Rattle.char_counts.specs.Counts.{CountsLent};
ghost use Rattle.char_offsets.specs.Steps.{EndTold, IndexKnown, PairRoom, PairsWritten, PairTold};

use buffers::Offset;
use char_counts::low_bytes::write_lows;
use char_counts::{count_at, write_marks, zeroed_lows, zeroed_marks};
use checks::{check_text, least_room};
use note::verdicts::{earlier, refused_if};
use note::{CharIndex, OriginalByte, Refusal};
use utf8::count::count_leads;

// The index of the character of the byte `to`, from that of the byte `at`, wherever the two stand. An inner function:
// the text was judged before.
pub fn index_from(text: &[u8], at: OriginalByte, index: CharIndex, to: OriginalByte) -> CharIndex
    requires index_known { IndexKnown limit text.now at.0 index.0 }
    requires to_in_bounds { to.0 < length text.now }
    ensures { result.0 ≡ index_of text.now to.0 }
{
    let known = at.0 as usize;
    let asked = to.0 as usize;
    if known <= asked {
        return CharIndex(index.0 + count_leads(&text[known + 1..asked + 1]) as u32);
    }
    CharIndex(index.0 - count_leads(&text[asked + 1..known + 1]) as u32)
}

// The byte by which a pair's end is told, and how much is added to its index.
#[derive(Clone, Copy)]
pub struct EndByte {
    pub byte: OriginalByte,
    pub more: u32,
}

// Of an end in a text of `size` bytes: itself, or the byte before it, or the start.
fn end_byte(size: usize, start: OriginalByte, end: OriginalByte) -> EndByte
    requires { start.0 < size }
    ensures { EndTold size start.0 end.0 result }
{
    let to = end.0 as usize;
    if to < size {
        return EndByte { byte: end, more: 0 };
    }
    if to == size {
        return EndByte {
            byte: OriginalByte(end.0 - 1),
            more: 1,
        };
    }
    EndByte {
        byte: start,
        more: 2,
    }
}

// A pair's answer in numbers, as the three columns of a list have it for C.
#[derive(Clone, Copy)]
pub struct Pair {
    pub number: u8,
    pub start: u32,
    pub end: u32,
}

// One pair of a text whose counts are passed.
fn convert_pair(
    text: &[u8],
    marks: &[Offset],
    lows: &[u8],
    start: OriginalByte,
    end: OriginalByte,
) -> Pair
    requires { CountsLent limit text.now marks.now lows.now }
    ensures { PairTold text.now start.0 end.0 result }
{
    let from = start.0 as usize;
    if text.len() <= from {
        return Pair {
            number: 10,
            start: 0,
            end: 0,
        };
    }
    let last = end_byte(text.len(), start, end);
    let to = last.byte;
    let first = count_at(marks, lows, from);
    let past = count_at(marks, lows, to.0 as usize);
    Pair {
        number: 0,
        start: first,
        end: past + last.more,
    }
}

// The answers of a list of pairs, in three columns. An inner call: pairs and room were judged before.
fn write_pairs(
    text: &[u8],
    marks: &[Offset],
    lows: &[u8],
    starts: &[u32],
    ends: &[u32],
    numbers: &mut [u8],
    char_starts: &mut [u32],
    char_ends: &mut [u32],
)
    requires counts_lent { CountsLent limit text.now marks.now lows.now }
    requires pair_room { PairRoom starts.now ends.now numbers.old char_starts.old char_ends.old }
    ensures { PairsWritten text.now starts.now ends.now
        numbers.old char_starts.old char_ends.old
        numbers.new char_starts.new char_ends.new }
{
    for i in 0..starts.len() {
        let start = OriginalByte(starts[i]);
        let end = OriginalByte(ends[i]);
        let pair = convert_pair(text, marks, lows, start, end);
        numbers[i] = pair.number;
        char_starts[i] = pair.start;
        char_ends[i] = pair.end;
    }
}

// The answers of a list of pairs, by counts that it makes. An inner call: text, pairs and room were judged before.
fn count_and_write(
    text: &[u8],
    starts: &[u32],
    ends: &[u32],
    numbers: &mut [u8],
    char_starts: &mut [u32],
    char_ends: &mut [u32],
)
    requires text_len_bound { length text.now ≤ limit }
    requires pair_room { PairRoom starts.now ends.now numbers.old char_starts.old char_ends.old }
    ensures { PairsWritten text.now starts.now ends.now
        numbers.old char_starts.old char_ends.old
        numbers.new char_starts.new char_ends.new }
{
    let mut marks = zeroed_marks();
    write_marks(text, &mut marks);
    let mut lows = zeroed_lows();
    write_lows(text, &mut lows);
    write_pairs(
        text,
        &marks,
        &lows,
        starts,
        ends,
        numbers,
        char_starts,
        char_ends,
    );
}

// A pair of bytes of the text as a pair of its characters. Refusals: those of a text, then `Missing`.
pub fn char_offsets(
    text: &[u8],
    start: OriginalByte,
    end: OriginalByte,
) -> Result<(CharIndex, CharIndex), Refusal>
    ensures { result ≡ char_offsets limit text.now start.0 end.0 }
{
    check_text(text)?;
    if text.len() <= start.0 as usize {
        return Err(Refusal::Missing);
    }
    let last = end_byte(text.len(), start, end);
    let first = index_from(text, OriginalByte(0), CharIndex(0), start);
    let past = index_from(text, start, first, last.byte);
    Ok((first, CharIndex(past.0 + last.more)))
}

// A list of pairs (RULES 15.4), in whatever order: for each 0 and its two characters, or the number
// of `Missing` beside 0 and 0. Refusals: those of a text and, beside them, `LengthMismatch` where the list has not as
// many ends as starts; then `NoRoom`.
pub fn char_offsets_list(
    text: &[u8],
    starts: &[u32],
    ends: &[u32],
    numbers: &mut [u8],
    char_starts: &mut [u32],
    char_ends: &mut [u32],
) -> Result<(), Refusal>
    ensures { CharOffsetsList limit text.now starts.now ends.now
        numbers.old char_starts.old char_ends.old result
        numbers.new char_starts.new char_ends.new }
{
    let checked = check_text(text);
    let unpaired = refused_if(starts.len() != ends.len(), Refusal::LengthMismatch);
    earlier(checked, unpaired)?;
    if least_room(numbers.len(), char_starts.len(), char_ends.len()) < starts.len() {
        return Err(Refusal::NoRoom);
    }
    count_and_write(text, starts, ends, numbers, char_starts, char_ends);
    Ok(())
}
