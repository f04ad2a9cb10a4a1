// The two columns of a fresh text: where each byte's character begins and where it ends, in blocks; what is left is
// carried from byte to byte.
// Each function here is an inner one: the text and the room were judged before.
ghost use Rattle.std.specs.Prelude.{◌≡◌, true, ◌≤◌, length};
ghost use Rattle.buffers.specs.Columns.{Filled};
ghost use Rattle.buffers.specs.Splice.{overlay};
ghost use Rattle.utf8.specs.Formed.{well_formed};
ghost use Rattle.note.specs.Notes.{limit};
ghost use Rattle.utf8.specs.CharRanges.{char_start, char_end};
ghost use Rattle.note.specs.Starting.{starting};

use buffers::Offset;
use column_blocks::BLOCK;
use column_blocks::runs::{ends_block, starts_block};
use utf8::continues;

// The starts of the bytes before `to`, carried forwards: a byte that continues a character begins where the one before
// it does.
fn carry_starts(text: &[u8], to: usize, starts: &mut [Offset])
    requires to_in_bounds { (to ≤ length text.now) × (length text.now ≤ limit) }
    requires text_in_bounds { length text.now ≤ length starts.old }
    ensures { Filled (char_start text.now) starts.old 0 to starts.new }
{
    let mut start: Offset = 0;
    for i in 0..to {
        if !continues(text[i]) {
            start = i as Offset;
        }
        starts[i] = start;
    }
}

// The ends of the bytes from `from` on, carried backwards: a byte that begins a character ends the one before it.
fn carry_ends(text: &[u8], from: usize, ends: &mut [Offset])
    requires text_value { (well_formed text.now ≡ true) × (length text.now ≤ limit) }
    requires from_in_bounds { (from ≤ length text.now) × (length text.now ≤ length ends.old) }
    ensures { Filled (char_end text.now) ends.old from (length text.now)
        ends.new }
{
    let mut end = text.len() as Offset;
    for i in (from..text.len()).rev() {
        ends[i] = end;
        if !continues(text[i]) {
            end = i as Offset;
        }
    }
}

// Where each byte's character begins, in blocks from the text's end on, as long as three bytes come before a block.
pub fn write_starts(text: &[u8], starts: &mut [Offset])
    requires text_value { (well_formed text.now ≡ true) × (length text.now ≤ limit) }
    requires text_in_bounds { length text.now ≤ length starts.old }
    ensures { starts.new ≡ overlay (starting text.now).starts starts.old }
{
    let blocks = text.len().saturating_sub(3) / BLOCK;
    for k in 0..blocks {
        let i = text.len() - (k + 1) * BLOCK;
        starts_block(text, i, starts, i);
    }
    carry_starts(text, text.len() - blocks * BLOCK, starts);
}

// Where each byte's character ends, in blocks from the text's beginning on, as long as three bytes come after a block.
pub fn write_ends(text: &[u8], ends: &mut [Offset])
    requires text_value { (well_formed text.now ≡ true) × (length text.now ≤ limit) }
    requires text_in_bounds { length text.now ≤ length ends.old }
    ensures { ends.new ≡ overlay (starting text.now).ends ends.old }
{
    let blocks = text.len().saturating_sub(3) / BLOCK;
    for k in 0..blocks {
        let i = k * BLOCK;
        ends_block(text, i, ends, i);
    }
    carry_ends(text, blocks * BLOCK, ends);
}
