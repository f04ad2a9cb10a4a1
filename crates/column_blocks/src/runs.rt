// A block of starts or of ends in any text: each is counted from three bytes beside its own.
ghost use Rattle.std.specs.Prelude.{◌≡◌, true, ℕ, ◌+◌, ◌-◌, ◌≤◌, length, get_or};
ghost use Rattle.buffers.specs.Columns.{Filled};
ghost use Rattle.utf8.specs.Formed.{well_formed};
ghost use Rattle.note.specs.Notes.{limit};
ghost use Rattle.utf8.specs.CharRanges.{char_start, char_end};
ghost use Rattle.column_blocks.specs.ContinuationRun.{continuation_run, run_at};

use crate::BLOCK;
use buffers::Offset;
use utf8::continues;

// How many of three bytes continue a character, up to the first that does not.
fn continuation_run(a: u8, b: u8, c: u8) -> u8
    ensures { result ≡ continuation_run a b c }
{
    let one = continues(a);
    let two = one & continues(b);
    let three = two & continues(c);
    one as u8 + two as u8 + three as u8
}

// For each index of `counts`, how many of the bytes at it from `a`, from `b` and from `c` on.
fn count_runs(text: &[u8], a: usize, b: usize, c: usize, counts: &mut [u8])
    requires counts_in_bounds { a + length counts.old ≤ length text.now }
    requires counts_in_bounds_2 { (b + length counts.old ≤ length text.now) × (c + length counts.old ≤ length text.now) }
    ensures { Filled (run_at text.now a b c) counts.old 0 (length counts.old)
        counts.new }
{
    for j in 0..counts.len() {
        counts[j] = continuation_run(text[a + j], text[b + j], text[c + j]);
    }
}

// From `i` on, each index less its count, in `starts` from `at` on.
fn step_back(i: usize, counts: &[u8], starts: &mut [Offset], at: usize)
    requires counts_in_bounds { (at + length counts.now ≤ length starts.old) × (i + length counts.now ≤ limit) }
    requires by_index { (k : ℕ) → get_or counts.now k 0 ≤ i }
    ensures { Filled (λ k. i + (k - at) - get_or counts.now (k - at) 0) starts.old at
        (at + length counts.now) starts.new }
{
    for k in 0..counts.len() {
        starts[at + k] = (i + k) as Offset - counts[k] as Offset;
    }
}

// It and `step_back` stay two: one loop for both takes the number as a closure and a law of it, longer than this loop.
// From `i` on, the index after each one and its count, in `ends` from `at` on.
fn step_ahead(i: usize, counts: &[u8], ends: &mut [Offset], at: usize)
    requires counts_in_bounds { (at + length counts.now ≤ length ends.old) × (i + length counts.now + 3 ≤ limit) }
    requires by_index { (k : ℕ) → get_or counts.now k 0 ≤ 3 }
    ensures { Filled (λ k. i + (k - at) + 1 + get_or counts.now (k - at) 0) ends.old at
        (at + length counts.now) ends.new }
{
    for k in 0..counts.len() {
        ends[at + k] = (i + k + 1) as Offset + counts[k] as Offset;
    }
}

// The starts of the 64 bytes from `i` on, in `starts` from `at` on.
// An inner function: the text is well-formed and within the limit; three bytes of it come before the block, and
// `starts` has room for the block.
pub fn starts_block(text: &[u8], i: usize, starts: &mut [Offset], at: usize)
    requires text_value { (well_formed text.now ≡ true) × (length text.now ≤ limit) }
    requires le_i { (3 ≤ i) × ((i + 64 ≤ length text.now) × (at + 64 ≤ length starts.old)) }
    ensures { Filled (λ k. char_start text.now (i + (k - at))) starts.old at (at + 64)
        starts.new }
{
    let mut counts = [0u8; BLOCK];
    count_runs(text, i, i - 1, i - 2, &mut counts);
    step_back(i, &counts, starts, at);
}

// It and `starts_block` stay two: their clauses, which may not change, speak of `char_start` and of `char_end`.
// The ends of the 64 bytes from `i` on, in `ends` from `at` on.
// An inner function: the text is well-formed and within the limit; three bytes of it come after the block, and `ends`
// has room for the block.
pub fn ends_block(text: &[u8], i: usize, ends: &mut [Offset], at: usize)
    requires text_value { (well_formed text.now ≡ true) × (length text.now ≤ limit) }
    requires i_in_bounds { (i + 67 ≤ length text.now) × (at + 64 ≤ length ends.old) }
    ensures { Filled (λ k. char_end text.now (i + (k - at))) ends.old at (at + 64)
        ends.new }
{
    let mut counts = [0u8; BLOCK];
    count_runs(text, i + 1, i + 2, i + 3, &mut counts);
    step_ahead(i, &counts, ends, at);
}
