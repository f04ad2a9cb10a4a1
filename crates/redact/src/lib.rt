// Blanking a literal in a fresh text (RULES 15.5): what `replace` makes of the starting note by the literal's matches,
// laid straight from the text (`redact_blocks`). All is judged and measured before the first store, and nothing twice:
// the starting note is accepted (`StartingAccepted`), and what is found covers its text (`FoundCovers`).
#![tactic(auto)]

ghost use Rattle.std.specs.Prelude.{◌≡◌, ◌+◌, ◌≤◌, ◌<◌, min, leb};
ghost use Rattle.validity_blocks.specs.Extremes.{largest};
ghost use Rattle.note.specs.Notes.{limit};
ghost use Rattle.note.specs.Refusals.{verdict};
ghost use Rattle.find.specs.Matching.{found_places};
ghost use Rattle.find.specs.Searching.{first_match};
ghost use Rattle.replace.specs.Sizes.{places_size};
ghost use Rattle.redact_note.specs.Redacting.{match_count};
ghost use Rattle.redact.specs.Redacting.{Redacted, input_faults};
ghost use Rattle.redact.specs.Blanks.{Fitting, FoundLaid, Margin, Resized, WholeLaid, WholeRoom};

use buffers::{Offset, copy};
use checks::{check_string, check_text, least_of_two, least_room};
use find::search::{first_match, next_match};
use from_text::columns::{write_ends, write_starts};
use note::verdicts::earlier;
use note::{LIMIT, Refusal};
use redact_blocks::blank;
use redact_note::count_matches;
use validity_blocks::extremes::largest;

// Whether text, literal or content is refused.
fn check_inputs(text: &[u8], literal: &[u8], content: &[u8]) -> Result<(), Refusal>
    ensures { result ≡ verdict (input_faults limit
        text.now literal.now content.now) }
{
    let texts = check_text(text);
    let strings = earlier(check_string(literal), check_string(content));
    earlier(texts, strings)
}

// Two sizes together; one more than the limit where they are more.
fn sum(a: usize, b: usize) -> usize
    requires { a ≤ limit + 1 }
    ensures { result ≡ min (limit + 1) (a + b) }
{
    if LIMIT + 1 - a < b {
        return LIMIT + 1;
    }
    a + b
}

// How many bytes the text has once each match, from the first one on, has given way to `content_len` bytes; one more
// than the limit where they are more.
fn blanked_size(text: &[u8], literal: &[u8], first: usize, content_len: usize) -> usize
    requires { first ≡ first_match text.now literal.now }
    ensures { result ≡ min (limit + 1)
        (places_size content_len (found_places text.now literal.now)) }
{
    let mut total = 0;
    let mut at = 0;
    let mut p = first;
    while p < text.len() {
        total = sum(sum(total, p - at), content_len);
        at = p + literal.len();
        p = next_match(text, literal, at);
    }
    sum(total, p - at)
}

// Whether what is published fits so much room. Where a content is no longer than the literal the result is no longer
// than the text: where the text fits, nothing is measured.
fn result_fits(text: &[u8], literal: &[u8], first: usize, content_len: usize, room: usize) -> bool
    requires { (first ≡ first_match text.now literal.now) × (room ≤ limit) }
    ensures { result ≡ leb
        (places_size content_len (found_places text.now literal.now)) room }
{
    if content_len <= literal.len() {
        if text.len() <= room {
            return true;
        }
    }
    blanked_size(text, literal, first, content_len) <= room
}

// How many bytes have to be left of a text of so many that more than 80 of the result are: a block, and the 16 that a
// content after it is laid by.
fn safe_margin(size: usize, literal: usize, content_len: usize) -> usize
    requires { size ≤ limit }
    ensures { Margin size literal content_len result }
{
    if size < literal {
        return size + 1;
    }
    let share = least_of_two(content_len, literal);
    if share == 0 {
        return size + 1;
    }
    80 * literal / share + 1
}

// The margin that blocks are laid by: `share` where it is small, and in any case as many bytes as are searched at once.
fn margin_of(share: usize, literal: usize) -> usize
    requires { literal ≤ limit }
    ensures { (literal + 80 ≤ result) × (share ≤ 1024 → share ≤ result) }
{
    if 1024 < share {
        return literal + 80;
    }
    if share < literal + 80 {
        return literal + 80;
    }
    share
}

// Up to where blocks may be laid: no bound where the margin is enough, else the result's size.
fn block_limit(text: &[u8], literal: &[u8], first: usize, content_len: usize, share: usize) -> usize
    requires { first ≡ first_match text.now literal.now }
    ensures { 1024 < share
        → result ≤ places_size content_len (found_places text.now literal.now) }
{
    if share <= 1024 {
        return LIMIT + 80;
    }
    blanked_size(text, literal, first, content_len)
}

// The starting note as it is, where the literal is nowhere.
fn lay_whole(text: &[u8], out: &mut [u8], out_starts: &mut [Offset], out_ends: &mut [Offset])
    requires { WholeRoom text.now out.old out_starts.old out_ends.old }
    ensures { WholeLaid text.now
        out.old out_starts.old out_ends.old
        out.new out_starts.new out_ends.new }
{
    copy(text, out, 0);
    write_starts(text, out_starts);
    write_ends(text, out_ends);
}

// What no byte of the text is larger than: its largest byte, or any byte's bound where its first bytes have a character
// of four bytes already.
fn max_byte(text: &[u8]) -> u8
    ensures { largest text.now ≤ result }
{
    let front_len = least_of_two(1024, text.len());
    if 0xF0 <= largest(&text[0..front_len]) {
        return 0xFF;
    }
    largest(text)
}

// Every match gives way to the content; a short one is padded, so that a block of it can be laid.
fn blank_found(
    text: &[u8],
    literal: &[u8],
    content: &[u8],
    first: usize,
    out: &mut [u8],
    out_starts: &mut [Offset],
    out_ends: &mut [Offset],
) -> usize
    requires { Fitting text.now literal.now content.now first
        out.old out_starts.old out_ends.old }
    ensures { FoundLaid text.now literal.now content.now
        out.old out_starts.old out_ends.old
        result out.new out_starts.new out_ends.new }
{
    if first == text.len() {
        lay_whole(text, out, out_starts, out_ends);
        return first;
    }
    let max = max_byte(text);
    let share = safe_margin(text.len(), literal.len(), content.len());
    let margin = margin_of(share, literal.len());
    let until = block_limit(text, literal, first, content.len(), share);
    if 16 < content.len() {
        return blank(
            text, max, literal, content, content, margin, until, out, out_starts, out_ends,
        );
    }
    let mut padded = [0u8; 16];
    copy(content, &mut padded, 0);
    blank(
        text, max, literal, content, &padded, margin, until, out, out_starts, out_ends,
    )
}

// How many matches gave way in a text that has `size` bytes since. Each of them made it longer or shorter by as much: no
// match is looked for again, unless the content is as long as the literal.
fn match_count(text: &[u8], literal: &[u8], first: usize, content_len: usize, size: usize) -> usize
    requires { Resized text.now literal.now first content_len size }
    ensures { result ≡ match_count (found_places text.now literal.now) }
{
    let literal_len = literal.len();
    if literal_len < content_len {
        return (size - text.len()) / (content_len - literal_len);
    }
    if content_len < literal_len {
        return (text.len() - size) / (literal_len - content_len);
    }
    count_matches(text, literal, first)
}

// Blanks every match of the literal in the starting note of the text: what is published is in front of `out`,
// `out_starts` and `out_ends`. It answers how many bytes that has, and how many matches gave way. It judges, in this
// order: `TooLong` (the text), `IllFormed` (text, literal or content), `NoRoom`.
pub fn redact(
    text: &[u8],
    literal: &[u8],
    content: &[u8],
    out: &mut [u8],
    out_starts: &mut [Offset],
    out_ends: &mut [Offset],
) -> Result<(usize, usize), Refusal>
    ensures { Redacted limit text.now literal.now content.now
        out.old out_starts.old out_ends.old
        result out.new out_starts.new out_ends.new }
{
    check_inputs(text, literal, content)?;
    let first = first_match(text, literal);
    let room = least_of_two(
        LIMIT,
        least_room(out.len(), out_starts.len(), out_ends.len()),
    );
    if !result_fits(text, literal, first, content.len(), room) {
        return Err(Refusal::NoRoom);
    }
    let size = blank_found(text, literal, content, first, out, out_starts, out_ends);
    let count = match_count(text, literal, first, content.len(), size);
    Ok((size, count))
}
