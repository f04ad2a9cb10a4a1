// How many characters have begun up to each byte of a text, kept for many look-ups: the count at every 128th byte, and
// the low byte of the count at each. So a look-up is two reads, wherever the byte is.
// Each function here is an inner one: the text was judged before.
#![tactic(auto)]

pub mod low_bytes;

ghost use Rattle.std.specs.Prelude.{◌≡◌, length};
ghost use Rattle.note.specs.Notes.{limit};
ghost use Rattle.char_counts.specs.Counts.{count_at, LookedUp, Markable, Marked};

use buffers::Offset;
use note::LIMIT;
use utf8::count::count_leads;

// As many marks as a text within the limit has.
pub const MARKS: usize = LIMIT / 128 + 1;

// Room for the counts of a text within the limit.
pub fn zeroed_marks() -> [Offset; MARKS]
    ensures { 512 ≡ length result }
{
    [0; MARKS]
}

pub fn zeroed_lows() -> [u8; LIMIT]
    ensures { limit ≡ length result }
{
    [0; LIMIT]
}

// The count at every 128th byte, in front of `marks`.
pub fn write_marks(text: &[u8], marks: &mut [Offset])
    requires { Markable limit text.now marks.old }
    ensures { Marked text.now marks.new }
{
    let mut count: Offset = 0;
    marks[0] = 0;
    for k in 1..text.len().div_ceil(128) {
        let byte = k * 128;
        count += count_leads(&text[byte - 127..byte + 1]) as Offset;
        marks[k] = count;
    }
}

// The count at the byte `b`: its mark's, and as many more as its low byte says.
pub fn count_at(marks: &[Offset], lows: &[u8], b: usize) -> u32
    requires { LookedUp marks.now lows.now b }
    ensures { result ≡ count_at marks.now lows.now b }
{
    let mark = marks[b / 128];
    mark as u32 + lows[b].wrapping_sub((mark % 256) as u8) as u32
}
