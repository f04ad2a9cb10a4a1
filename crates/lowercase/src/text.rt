// A text in lowercase, 64 bytes at a time.
// Each function here is an inner one: the text is well-formed, and there is room for the result.
ghost use Rattle.std.specs.Prelude.{◌≡◌, ◌+◌, ◌≤◌, length};
ghost use Rattle.buffers.specs.Splice.{overlay, splice};
ghost use Rattle.lowercase.specs.Laying.{LatinLaid, LatinRoom, LowerRoom, PlacesFound, WalkLaid};
ghost use Rattle.lowercase.specs.Laying.{lowered_bytes, lowered_each, none_latin};

use map_columns::Reached;

// Bytes that each give one, laid from `at` on. A to Z are told by comparison, so that the loop is vectorised: this is
// the table below 80 (`ComparedAsTable`).
fn lay_block(block: &[u8], out: &mut [u8], at: usize)
    requires { at + length block.now ≤ length out.old }
    ensures { out.new ≡ splice out.old at (lowered_each block.now) }
{
    for (i, byte) in block.iter().enumerate() {
        let b = *byte;
        out[at + i] = b + ((0x41 <= b) & (b <= 0x5A)) as u8 * 32;
    }
}

// What the character at `j` gives, one from U+0080 to U+017F, laid from `at` on; where that ends. U+0130 gives i and an
// added U+0307, a byte more than it has: so the bytes after it up to `to` are laid once more, after these.
fn lay_pair(
    text: &[u8],
    j: usize,
    to: usize,
    table: &[u32; 384],
    out: &mut [u8],
    at: usize,
) -> usize
    requires { LatinRoom text.now j to table.now out.old at }
    ensures { LatinLaid text.now j to out.old at result out.new }
{
    let c = (text[j] as u32 - 0xC0) * 64 + (text[j + 1] as u32 - 0x80);
    let image = table[c as usize];
    if c != 0x130 {
        out[at] = (0xC0 + image / 64) as u8;
        out[at + 1] = (0x80 + image % 64) as u8;
        return at + 2;
    }
    out[at] = image as u8;
    out[at + 1] = 0xCC;
    out[at + 2] = 0x87;
    if to <= j + 2 {
        return at + 3;
    }
    lay_block(&text[j + 2..to], out, at + 3);
    at + 3
}

// Whether no byte begins a character from U+0080 to U+017F. The loop has no way out inside, so that it is vectorised.
fn none_latin(block: &[u8]) -> bool
    ensures { result ≡ none_latin block.now }
{
    let mut none = true;
    for byte in block {
        none = none & !((0xC2 <= *byte) & (*byte <= 0xC5));
    }
    none
}

// The places of the bytes that begin such a character, laid in front; how many they are. Each turn lays a place, and the
// next one over it where it is none: so no branch waits for the text.
fn latin_places(block: &[u8], places: &mut [u8]) -> usize
    requires { (length block.now ≤ 64) × (length block.now ≤ length places.old) }
    ensures { PlacesFound block.now places.old result places.new }
{
    let mut n = 0;
    for (i, byte) in block.iter().enumerate() {
        places[n] = i as u8;
        n += ((0xC2 <= *byte) & (*byte <= 0xC5)) as usize;
    }
    n
}

// The bytes from `from` up to `to`, at most 64: each alone, and then the characters of two bytes in their places. Where
// the last byte begins such a character, the one after it is laid too.
fn lay_pairs(
    text: &[u8],
    from: usize,
    to: usize,
    table: &[u32; 384],
    out: &mut [u8],
    start: usize,
) -> Reached
    requires { LowerRoom text.now from table.now out.old start
        × (from ≤ to) × (to ≤ length text.now) × (to ≤ from + 64) }
    ensures { WalkLaid text.now from to out.old start result out.new }
{
    lay_block(&text[from..to], out, start);
    let mut places = [0u8; 64];
    let count = latin_places(&text[from..to], &mut places);
    let mut i = from;
    let mut at = start;
    for q in 0..count {
        let j = from + places[q] as usize;
        at = lay_pair(text, j, to, table, out, at + (j - i));
        i = j + 2;
    }
    if i < to {
        return Reached {
            position: to,
            written: at + (to - i),
        };
    }
    Reached {
        position: i,
        written: at,
    }
}

// The text in lowercase.
pub fn lay_text(text: &[u8], table: &[u32; 384], out: &mut [u8])
    requires { LowerRoom text.now 0 table.now out.old 0 }
    ensures { out.new ≡ overlay (lowered_bytes text.now) out.old }
{
    let mut i = 0;
    let mut at = 0;
    while 64 <= text.len() - i {
        if none_latin(&text[i..i + 64]) {
            lay_block(&text[i..i + 64], out, at);
            i += 64;
            at += 64;
        } else {
            let next = lay_pairs(text, i, i + 64, table, out, at);
            i = next.position;
            at = next.written;
        }
    }
    lay_pairs(text, i, text.len(), table, out, at);
}
