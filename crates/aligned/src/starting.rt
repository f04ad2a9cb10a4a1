// The note that no edit has touched: its cleaned text is its transcript, each byte aligned to its character's range.
ghost use Rattle.std.specs.Prelude.{◌≡◌, ◌≤◌, length};
ghost use Rattle.validity.specs.Texts.{ascii};
ghost use Rattle.note.specs.Notes.{limit};
ghost use Rattle.aligned.specs.IsStarting.{carries_own, is_identity, is_char_aligned, is_starting};

use buffers::Offset;
use utf8::continues;

// Whether the start s1 and the end e0 are those of characters, by their neighbours and the byte `b` at `i`.
// It has no branch, so that a loop over it is vectorised.
fn carries_own(b: u8, s0: Offset, s1: Offset, e0: Offset, e1: Offset, i: Offset) -> bool
    ensures { result ≡ carries_own b s0 s1 e0 e1 i }
{
    let more = continues(b);
    ((more & (s1 == s0)) | (!more & (s1 == i))) & ((more & (e0 == e1)) | (!more & (e0 == i)))
}

// Whether each alignment is the one byte at its index.
fn is_identity(starts: &[Offset], ends: &[Offset]) -> bool
    requires { (length starts.now ≤ limit) × (length ends.now ≡ length starts.now) }
    ensures { result ≡ is_identity starts.now ends.now (length starts.now) }
{
    let mut ok = true;
    for i in 0..starts.len() {
        let at = i as Offset;
        ok = ok & ((starts[i] == at) & (ends[i] == at + 1));
    }
    ok
}

// Whether each byte is aligned to its character's range. An inner function: limit and numbers of alignments were judged
// before.
fn is_char_aligned(text: &[u8], starts: &[Offset], ends: &[Offset]) -> bool
    requires text_len_bound { length text.now ≤ limit }
    requires starts_len { (length starts.now ≡ length text.now) × (length ends.now ≡ length text.now) }
    ensures { result ≡ is_char_aligned text.now starts.now ends.now
        (length text.now) }
{
    if text.len() == 0 {
        return true;
    }
    let mut ok = (starts[0] == 0) & (ends[text.len() - 1] == text.len() as Offset);
    for i in 1..text.len() {
        ok = ok
            & carries_own(
                text[i],
                starts[i - 1],
                starts[i],
                ends[i - 1],
                ends[i],
                i as Offset,
            );
    }
    ok
}

// Whether the columns are those of the starting note of a text (RULES 1.6): of an ASCII text, in which each byte is a
// character, by its index alone. Whether it is one was told before.
// An inner function: the text is within the limit and has one start and one end for each byte, and `plain` was told of
// it.
pub fn is_starting(text: &[u8], starts: &[Offset], ends: &[Offset], plain: bool) -> bool
    requires plain_value { plain ≡ ascii text.now }
    requires text_len_bound { length text.now ≤ limit }
    requires starts_len { (length starts.now ≡ length text.now) × (length ends.now ≡ length text.now) }
    ensures { result ≡ is_starting text.now starts.now ends.now }
{
    if plain {
        return is_identity(starts, ends);
    }
    is_char_aligned(text, starts, ends)
}
