// Finding a literal (RULES 9.4 to 9.6; Rust: `Pattern for &str`): leftmost matches without overlap, as a list that
// covers the text. One search writes the list where the given room holds any; where it may not, another one
// counts its places first.
#![tactic(auto)]

pub mod search;

ghost use Rattle.std.specs.Prelude.{◌≡◌, ◌+◌, ◌≤◌, leb, length};
ghost use Rattle.buffers.specs.Splice.{overlay, Laid};
ghost use Rattle.note.specs.Notes.{limit};
ghost use Rattle.pattern.specs.Encoding.{encoded_places};
ghost use Rattle.find.specs.Matching.{between, found_places, place_from};
ghost use Rattle.find.specs.Finding.{Finding, found_bytes};
ghost use Rattle.find.specs.Searching.{first_match};

use checks::{check_string, check_text};
use note::verdicts::earlier;
use note::{NormalizedByte, Refusal};
use pattern::Place;
use pattern::writing::{room_for, write_place};
use search::{first_match, next_match};

// The place from `start` up to `end`.
fn place_from(start: usize, end: usize, matched: bool) -> Place
    requires { (start ≤ limit) × (end ≤ limit) }
    ensures { result ≡ place_from start end matched }
{
    let start = NormalizedByte(start as u32);
    let end = NormalizedByte(end as u32);
    Place {
        start,
        end,
        matched,
    }
}

// How many places are between two matches: one, or none where the matches touch.
fn count_between(from: usize, to: usize) -> usize
    ensures { result ≡ length (between from to) }
{
    if from < to {
        return 1;
    }
    0
}

// How many places are found, from the first match on.
fn count_places(text: &[u8], literal: &[u8], first: usize) -> usize
    requires { (length text.now ≤ limit) × (first ≡ first_match text.now literal.now) }
    ensures { (result ≡ length (found_places text.now literal.now)) × (result ≤ limit + limit + 1) }
{
    if first == text.len() {
        return 1;
    }
    let mut count = 0;
    let mut at = 0;
    let mut p = first;
    while p < text.len() {
        count += count_between(at, p) + 1;
        at = p + literal.len();
        p = next_match(text, literal, at);
    }
    count + count_between(at, p)
}

// Whether so much room holds the list: where the longest one fits, nothing is counted.
// An inner function: the text is within the limit.
pub fn list_fits(text: &[u8], literal: &[u8], first: usize, room: usize) -> bool
    requires { (length text.now ≤ limit) × (first ≡ first_match text.now literal.now) }
    ensures { result ≡ leb (length (found_bytes text.now literal.now)) room }
{
    if literal.len() == 0 {
        return room_for(1) <= room;
    }
    if room_for(2 * (text.len() / literal.len()) + 1) <= room {
        return true;
    }
    room_for(count_places(text, literal, first)) <= room
}

// What is between two matches, in the list from `i` on; where the list reaches then.
fn write_between(start: usize, end: usize, out: &mut [u8], i: usize) -> usize
    requires { (end ≤ limit) × (i + length (encoded_places (between start end)) ≤ length out.old) }
    ensures { Laid (encoded_places (between start end)) out.old i result out.new }
{
    if start < end {
        return write_place(place_from(start, end, false), out, i);
    }
    i
}

// The list of a literal's matches, from the first match on; how many bytes it has.
// An inner function: there is room for it.
pub fn write_list(text: &[u8], literal: &[u8], first: usize, out: &mut [u8]) -> usize
    requires { (length text.now ≤ limit) × (first ≡ first_match text.now literal.now)
        × (length (found_bytes text.now literal.now) ≤ length out.old) }
    ensures { (result ≡ length (found_bytes text.now literal.now))
        × (out.new ≡ overlay (found_bytes text.now literal.now) out.old) }
{
    if first == text.len() {
        return write_place(place_from(0, text.len(), false), out, 0);
    }
    let mut i = 0;
    let mut at = 0;
    let mut start = first;
    while start < text.len() {
        i = write_between(at, start, out, i);
        at = start + literal.len();
        i = write_place(place_from(start, at, true), out, i);
        start = next_match(text, literal, at);
    }
    write_between(at, start, out, i)
}

// The literal's matches in the text, and what is between them, as a match list in `out`.
// It judges, in this order: `TooLong` (the text), `IllFormed` (text or literal), `NoRoom`.
pub fn find_matches(text: &[u8], literal: &[u8], out: &mut [u8]) -> Result<usize, Refusal>
    ensures { Finding limit text.now literal.now out.old result out.new }
{
    earlier(check_text(text), check_string(literal))?;
    let first = first_match(text, literal);
    if !list_fits(text, literal, first, out.len()) {
        return Err(Refusal::NoRoom);
    }
    Ok(write_list(text, literal, first, out))
}
