// Lists of pairs, a literal and its filler each (RULES 15.10): the bytes of all words end to end, and the size of each.
// They are judged, and how often their words are in a text is counted.
#![tactic(auto)]

ghost use Rattle.std.specs.Prelude.{◌≡◌, ◌≤◌, length};
ghost use Rattle.buffers.specs.Splice.{overlay};
ghost use Rattle.note.specs.Notes.{limit};
ghost use Rattle.note.specs.Refusals.{verdict};
ghost use Rattle.find.specs.Matching.{found_places};
ghost use Rattle.redact_note.specs.Redacting.{match_count};
ghost use Rattle.word_pairs.specs.Words.{Cut, pair_cut, pairs_of, word_faults};
ghost use Rattle.word_pairs.specs.Counts.{Countable, word_counts, word_in, zero_count};
ghost use Rattle.word_pairs.specs.Judging.{words_judged};

use find::search::first_match;
use note::{LIMIT, Refusal};
use redact_note::count_matches;
use validity::well_formed;

// One word of a pair.
#[derive(Clone, Copy)]
pub enum Word {
    Literal,
    Filler,
}

// Whether the sizes add up to all the bytes, and each word is UTF-8.
fn judge_words(bytes: &[u8], sizes: &[u32]) -> Result<(), Refusal>
    ensures { result ≡ words_judged bytes.now sizes.now }
{
    let mut formed = true;
    let mut at = 0;
    for size in sizes {
        let size = *size as usize;
        if bytes.len() - at < size {
            return Err(Refusal::LengthMismatch);
        }
        let end = at + size;
        formed = formed & well_formed(&bytes[at..end]);
        at = end;
    }
    if at < bytes.len() {
        return Err(Refusal::LengthMismatch);
    }
    if !formed {
        return Err(Refusal::IllFormed);
    }
    Ok(())
}

// Whether these are pairs. It judges, in this order: `TooLong`, `LengthMismatch`, `IllFormed`.
pub fn check_words(bytes: &[u8], sizes: &[u32]) -> Result<(), Refusal>
    ensures { result ≡ verdict (word_faults limit bytes.now sizes.now) }
{
    if 2 * LIMIT < sizes.len() {
        return Err(Refusal::TooLong);
    }
    if sizes.len() % 2 != 0 {
        return Err(Refusal::LengthMismatch);
    }
    judge_words(bytes, sizes)
}

// How many matches a word has in a text.
fn count_word(text: &[u8], word: &[u8]) -> u32
    requires { length text.now ≤ limit }
    ensures { result ≡ match_count (found_places text.now word.now) }
{
    let first = first_match(text, word);
    count_matches(text, word, first) as u32
}

// The same of one word of the pair whose literal is `at..middle` and whose filler is `middle..end` of the bytes.
fn count_pair(text: &[u8], bytes: &[u8], at: usize, middle: usize, end: usize, which: Word) -> u32
    requires { (length text.now ≤ limit) × Cut bytes.now at middle end }
    ensures { result ≡ match_count
        (found_places text.now (word_in which (pair_cut bytes.now at middle end))) }
{
    match which {
        Word::Literal => count_word(text, &bytes[at..middle]),
        Word::Filler => count_word(text, &bytes[middle..end]),
    }
}

// How many matches that word of each pair has in a text, in front of `column`.
// An inner function: the text is within the limit, the pairs were judged, and the column has room.
pub fn count_words(text: &[u8], bytes: &[u8], sizes: &[u32], which: Word, column: &mut [u32])
    requires { Countable text.now bytes.now sizes.now column.old }
    ensures { column.new
        ≡ overlay (word_counts which text.now (pairs_of bytes.now sizes.now))
        column.old }
{
    let mut at = 0;
    for k in 0..sizes.len() / 2 {
        let middle = at + sizes[2 * k] as usize;
        let end = middle + sizes[2 * k + 1] as usize;
        column[k] = count_pair(text, bytes, at, middle, end, which);
        at = end;
    }
}

// What a literal that was not found was blanked.
const NONE: u32 = 0;

// How many numbers are 0.
pub fn zeros(column: &[u32]) -> usize
    ensures { result ≡ zero_count column.now }
{
    let mut count = 0;
    for x in column {
        if *x == NONE {
            count += 1;
        }
    }
    count
}
