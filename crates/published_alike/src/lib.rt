// Whether two notes publish the same under one list and one content (RULES 15; the blanking claim as a call), found by
// walking the list.
#![tactic(auto)]

ghost use Rattle.std.specs.Prelude.{◌≡◌, ℕ};
ghost use Rattle.note.specs.Notes.{limit, passed};
ghost use Rattle.note.specs.Refusals.{Verdict};
ghost use Rattle.pattern.specs.Entries.{places_of};
ghost use Rattle.replace.specs.Replacing.{publication};
ghost use Rattle.published_alike.specs.Alike.{PublishedAlike};
ghost use Rattle.published_alike.specs.Walk.{BothCovered, Lying, all_alike, column_alike, every_place, text_alike};

use buffers::Offset;
use buffers::equality::same;
use note::verdicts::earlier;
use note::{LIMIT, NormalizedString, Refusal, before_end};
use pattern::{Place, entry_at};
use replace::check_replace;

// Whether a place of a judged list gives the same of two texts.
fn text_alike(a: &[u8], b: &[u8], place: Place) -> bool
    requires { Lying a.now b.now place }
    ensures { result ≡ text_alike a.now b.now place }
{
    let start = place.start;
    let end = place.end;
    let from = start.0 as usize;
    let to = end.0 as usize;
    if place.matched {
        return true;
    }
    same(&a[from..to], &b[from..to])
}

// And of two columns of alignments, beside a content of `content_len` bytes.
fn column_alike(a: &[Offset], b: &[Offset], content_len: usize, place: Place) -> bool
    requires { Lying a.now b.now place }
    ensures { result ≡ column_alike content_len a.now b.now place }
{
    let start = place.start;
    let end = place.end;
    let from = start.0 as usize;
    let to = end.0 as usize;
    if place.matched {
        if content_len == 0 {
            return true;
        }
        return before_end(a, to) == before_end(b, to);
    }
    same(&a[from..to], &b[from..to])
}

fn texts_alike(a: &[u8], b: &[u8], list: &[u8]) -> bool
    requires { BothCovered a.now b.now list.now }
    ensures { result ≡ every_place (text_alike a.now b.now) (places_of list.now) }
{
    let mut i = 0;
    while i < list.len() {
        let Some((place, next)) = entry_at(list, i) else {
            return true;
        };
        if !text_alike(a, b, place) {
            return false;
        }
        i = next;
    }
    true
}

fn columns_alike(a: &[Offset], b: &[Offset], list: &[u8], content_len: usize) -> bool
    requires { BothCovered a.now b.now list.now }
    ensures { result ≡ every_place (column_alike content_len a.now b.now)
        (places_of list.now) }
{
    let mut i = 0;
    while i < list.len() {
        let Some((place, next)) = entry_at(list, i) else {
            return true;
        };
        if !column_alike(a, b, content_len, place) {
            return false;
        }
        i = next;
    }
    true
}

// Whether two notes that a list covers publish the same beside a content of `content_len` bytes.
fn all_alike(
    normalized: &[u8],
    starts: &[Offset],
    ends: &[Offset],
    other: &[u8],
    other_starts: &[Offset],
    other_ends: &[Offset],
    list: &[u8],
    content_len: usize,
) -> bool
    requires { BothCovered normalized.now other.now list.now
        × (BothCovered starts.now other_starts.now list.now
        × BothCovered ends.now other_ends.now list.now) }
    ensures { result ≡ all_alike normalized.now starts.now ends.now
        other.now other_starts.now other_ends.now
        content_len (places_of list.now) }
{
    if !texts_alike(normalized, other, list) {
        return false;
    }
    if !columns_alike(starts, other_starts, list, content_len) {
        return false;
    }
    columns_alike(ends, other_ends, list, content_len)
}

// What an answer says, without its size.
fn said(answer: Result<usize, Refusal>) -> Result<(), Refusal>
    ensures { (v : Verdict) (size : ℕ) → answer ≡ publication v size → result ≡ v }
{
    answer?;
    Ok(())
}

// Whether the two notes that `replace` makes of these with this list and content are equal, text and alignments.
pub fn published_alike(
    note: &NormalizedString,
    other: &NormalizedString,
    list: &[u8],
    content: &[u8],
) -> Result<bool, Refusal>
    ensures { PublishedAlike limit
        (passed note.now)
        (passed other.now)
        list.now content.now result }
{
    let one = said(check_replace(note, list, content, LIMIT));
    let two = said(check_replace(other, list, content, LIMIT));
    earlier(one, two)?;
    Ok(all_alike(
        note.normalized,
        note.starts,
        note.ends,
        other.normalized,
        other.starts,
        other.ends,
        list,
        content.len(),
    ))
}
