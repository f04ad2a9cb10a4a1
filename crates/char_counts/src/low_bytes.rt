// The low byte of the count at each byte. The count at a byte is that at the 16th byte before it and as many more as
// begin in between, so that 16 bytes at a time are told side by side.
ghost use Rattle.std.specs.Prelude.{ℕ, ◌+◌, ◌≤◌, length, slice_index};
ghost use Rattle.buffers.specs.Columns.{Filled};
ghost use Rattle.char_counts.specs.Lows.{BlockReady, EachReady, four_at, LowsTo, sixteen_at};

use utf8::continues;

// How many of the four bytes from each place on begin a character.
fn write_fours(text: &[u8], from: usize, fours: &mut [u8])
    requires { from + length fours.old + 3 ≤ length text.now }
    ensures { Filled (four_at text.now from) fours.old 0
        (length fours.old) fours.new }
{
    for (j, four) in fours.iter_mut().enumerate() {
        *four = !continues(text[from + j]) as u8
            + !continues(text[from + j + 1]) as u8
            + !continues(text[from + j + 2]) as u8
            + !continues(text[from + j + 3]) as u8;
    }
}

// How many of the 16 bytes from each place on begin a character, from the counts of four.
fn write_sixteens(fours: &[u8], sixteens: &mut [u8])
    requires { (length sixteens.old + 12 ≤ length fours.now) × ((k : ℕ) → slice_index fours.now k ≤ 4) }
    ensures { Filled (sixteen_at fours.now) sixteens.old 0
        (length sixteens.old) sixteens.new }
{
    for (j, sixteen) in sixteens.iter_mut().enumerate() {
        *sixteen = fours[j] + fours[j + 4] + fours[j + 8] + fours[j + 12];
    }
}

// The 128 low bytes after the first i + 16.
fn low_block(text: &[u8], i: usize, lows: &mut [u8])
    requires { BlockReady text.now i lows.old }
    ensures { LowsTo text.now lows.old (i + 144) lows.new }
{
    let mut fours = [0u8; 140];
    write_fours(text, i + 1, &mut fours);
    let mut sixteens = [0u8; 128];
    write_sixteens(&fours, &mut sixteens);
    for (j, more) in sixteens.iter().enumerate() {
        lows[i + 16 + j] = lows[i + j].wrapping_add(*more);
    }
}

// The low bytes from `from` up to `to`, one after the other.
fn low_each(text: &[u8], from: usize, to: usize, lows: &mut [u8])
    requires { EachReady text.now from to lows.old }
    ensures { LowsTo text.now lows.old to lows.new }
{
    for i in from..to {
        lows[i] = lows[i - 1].wrapping_add(!continues(text[i]) as u8);
    }
}

// The low byte at each byte of a text, in front of `lows`.
// An inner function: `lows` has room for the text, and at least one element.
pub fn write_lows(text: &[u8], lows: &mut [u8])
    requires { (1 ≤ length lows.old) × (length text.now ≤ length lows.old) }
    ensures { LowsTo text.now lows.old (length text.now)
        lows.new }
{
    lows[0] = 0;
    if text.len() < 16 {
        low_each(text, 1, text.len(), lows);
        return;
    }
    low_each(text, 1, 16, lows);
    let blocks = (text.len() - 16) / 128;
    for block in 0..blocks {
        low_block(text, block * 128, lows);
    }
    low_each(text, blocks * 128 + 16, text.len(), lows);
}
