// Places judged 16 at a time: each byte of a block with the bytes beside it, by tests without a way out.
ghost use Rattle.std.specs.Prelude.{◌≡◌, ◌+◌, ◌≤◌, length};
ghost use Rattle.buffers.specs.Every.{every_below};
ghost use Rattle.pattern.specs.Placed.{block_fits, end_stands, judged_blocks, judged_to, placed_at, placed_byte};

use crate::{entry_at, fits_at};
use numbers::little_endian::get_u16_le;
use utf8::is_char_boundary;

// Where the judged places of a list end, in the text and in the list: 0 and 0 where none is judged, so that a list is
// then judged from its start.
#[derive(Clone, Copy)]
pub struct Judged {
    pub at: usize,
    pub next: usize,
}

// Whether `a` can be the byte `j` of a block of places, three bytes after `before` and followed by b, c, d: a command
// is known, a start is the end before it, and is not above its own end.
fn placed_at(j: usize, before: u8, a: u8, b: u8, c: u8, d: u8) -> bool
    ensures { result ≡ placed_at j before a b c d }
{
    let command = (j % 5 != 0) | ((a == 11) | (a == 12));
    let start = ((j % 5 != 1) & (j % 5 != 2)) | (a == before);
    let order = (j % 5 != 1) | ((b < d) | ((b == d) & (a <= c)));
    command & start & order
}

// Whether this holds of each byte of the block that begins at `i`.
fn all_placed(list: &[u8], i: usize) -> bool
    requires { (3 ≤ i) × (i + 83 ≤ length list.now) }
    ensures { result ≡ every_below 80 (placed_byte list.now i) }
{
    let before = i - 3;
    let mut ok = true;
    for j in 0..80 {
        let at = before + j;
        ok = ok
            & placed_at(
                j,
                list[at],
                list[at + 3],
                list[at + 4],
                list[at + 5],
                list[at + 6],
            );
    }
    ok
}

// Whether each place of the block ends on a boundary of the text.
fn all_stand(text: &[u8], list: &[u8], i: usize) -> bool
    requires { i + 80 ≤ length list.now }
    ensures { result ≡ every_below 16 (end_stands text.now list.now i) }
{
    let mut ok = true;
    for k in 0..16 {
        let end = get_u16_le(list, i + 5 * k + 3);
        ok = ok & is_char_boundary(text, end as usize);
    }
    ok
}

// Whether the 16 places from `i` on fit after those before them.
fn block_fits(text: &[u8], list: &[u8], i: usize) -> bool
    requires { (3 ≤ i) × (i + 83 ≤ length list.now) }
    ensures { result ≡ block_fits text.now list.now i }
{
    if !all_placed(list, i) {
        return false;
    }
    all_stand(text, list, i)
}

// The places before `i`, of which the last ends where its two bytes say.
fn judged_to(list: &[u8], i: usize) -> Judged
    requires { (2 ≤ i) × (i ≤ length list.now) }
    ensures { result ≡ judged_to list.now i }
{
    Judged {
        at: get_u16_le(list, i - 2) as usize,
        next: i,
    }
}

// The first place of the list and the blocks after it, as far as all of it fits; from there on a list is judged place
// by place.
pub fn judge_blocks(text: &[u8], list: &[u8]) -> Judged
    ensures { result ≡ judged_blocks text.now list.now }
{
    let none = Judged { at: 0, next: 0 };
    let Some((first, second)) = entry_at(list, 0) else {
        return none;
    };
    if !fits_at(text, 0, first) {
        return none;
    }
    let blocks = list.len().saturating_sub(second + 3) / 80;
    for k in 0..blocks {
        let i = second + 80 * k;
        if !block_fits(text, list, i) {
            return judged_to(list, i);
        }
    }
    judged_to(list, second + 80 * blocks)
}
