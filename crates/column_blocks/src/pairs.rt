// A block of starts or of ends in a text without a character of four bytes: each is counted from two bytes beside its
// own. What a number has of its index stands in a byte, behind a base that is the same for all 64.
ghost use Rattle.std.specs.Prelude.{◌≡◌, true, ℕ, ◌+◌, ◌-◌, ◌≤◌, ◌<◌, length, get_or};
ghost use Rattle.buffers.specs.Columns.{Filled};
ghost use Rattle.utf8.specs.Formed.{well_formed};
ghost use Rattle.validity_blocks.specs.Extremes.{largest};
ghost use Rattle.note.specs.Notes.{limit};
ghost use Rattle.utf8.specs.CharRanges.{char_start, char_end};
ghost use Rattle.column_blocks.specs.ContinuationRun.{continuation_run};

use crate::BLOCK;
use buffers::Offset;
use utf8::continues;

// How many of two bytes do not continue a character, where the second counts as the first does if that one does not.
fn begun(a: u8, b: u8) -> u8
    ensures { result + continuation_run a b 0 ≡ 2 }
{
    let one = !continues(a);
    let two = one | !continues(b);
    one as u8 + two as u8
}

// For each of 64 indices `low` and the index, and two less what continues a character at it in `a` and then in `b`.
fn count_back(a: &[u8], b: &[u8], low: u8, steps: &mut [u8])
    requires { (64 ≤ length a.now) × (64 ≤ length b.now) × (64 ≤ length steps.old) × (low < 64) }
    ensures { Filled
        (λ k. low + k + 2 - continuation_run (get_or a.now k 0) (get_or b.now k 0) 0)
        steps.old 0 64 steps.new }
{
    for k in 0..BLOCK {
        steps[k] = low + k as u8 + begun(a[k], b[k]);
    }
}

// It and `count_back` stay two: one loop for both takes the sum as a closure and a law of it, longer than this loop.
// For each of 64 indices `low` and the index, and three more than what continues a character at it in `a` and then in
// `b`.
fn count_ahead(a: &[u8], b: &[u8], low: u8, steps: &mut [u8])
    requires { (64 ≤ length a.now) × (64 ≤ length b.now) × (64 ≤ length steps.old) × (low < 64) }
    ensures { Filled
        (λ k. low + k + 3 + continuation_run (get_or a.now k 0) (get_or b.now k 0) 0)
        steps.old 0 64 steps.new }
{
    for k in 0..BLOCK {
        steps[k] = low + k as u8 + 5 - begun(a[k], b[k]);
    }
}

// Each step, added to the base, in `out` from `at` on.
fn add_base(base: Offset, steps: &[u8], out: &mut [Offset], at: usize)
    requires steps_len { (length steps.now ≡ 64) × (at + 64 ≤ length out.old) }
    requires by_index { (k : ℕ) → base + get_or steps.now k 0 ≤ limit }
    ensures { Filled (λ k. base + get_or steps.now (k - at) 0) out.old at (at + 64)
        out.new }
{
    for k in 0..BLOCK {
        out[at + k] = base + steps[k] as Offset;
    }
}

// The starts of the 64 bytes from `i` on, in `starts` from `at` on.
// An inner function: the text is well-formed, within the limit and without a character of four bytes; two bytes of it
// come before the block and three after it, and `starts` has room for the block.
pub fn starts_block(text: &[u8], i: usize, starts: &mut [Offset], at: usize)
    requires text_value { (well_formed text.now ≡ true) × (length text.now ≤ limit) × (largest text.now < 0xF0) }
    requires le_i { (2 ≤ i) × ((i + 67 ≤ length text.now) × (at + 64 ≤ length starts.old)) }
    ensures { Filled (λ k. char_start text.now (i + (k - at))) starts.old at (at + 64)
        starts.new }
{
    let low = (i - 2) % BLOCK;
    let mut steps = [0u8; BLOCK];
    count_back(
        &text[i..i + BLOCK],
        &text[i - 1..i - 1 + BLOCK],
        low as u8,
        &mut steps,
    );
    add_base((i - 2 - low) as Offset, &steps, starts, at);
}

// It and `starts_block` stay two: their clauses, which may not change, speak of `char_start` and of `char_end`.
// The ends of the 64 bytes from `i` on, in `ends` from `at` on.
// An inner function: the text is well-formed, within the limit and without a character of four bytes; two bytes of it
// come before the block and three after it, and `ends` has room for the block.
pub fn ends_block(text: &[u8], i: usize, ends: &mut [Offset], at: usize)
    requires text_value { (well_formed text.now ≡ true) × (length text.now ≤ limit) × (largest text.now < 0xF0) }
    requires le_i { (2 ≤ i) × ((i + 67 ≤ length text.now) × (at + 64 ≤ length ends.old)) }
    ensures { Filled (λ k. char_end text.now (i + (k - at))) ends.old at (at + 64)
        ends.new }
{
    let low = (i - 2) % BLOCK;
    let mut steps = [0u8; BLOCK];
    count_ahead(
        &text[i + 1..i + 1 + BLOCK],
        &text[i + 2..i + 2 + BLOCK],
        low as u8,
        &mut steps,
    );
    add_base((i - 2 - low) as Offset, &steps, ends, at);
}
