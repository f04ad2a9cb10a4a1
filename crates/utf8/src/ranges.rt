// Where the character of a byte begins and ends, byte by byte. Inner functions: the text was judged before.
ghost use Rattle.std.specs.Prelude.{◌≡◌, true, ◌<◌, length};
ghost use Rattle.utf8.specs.Formed.{well_formed};
ghost use Rattle.utf8.specs.CharRanges.{char_end, char_start};

use crate::continues;

// Where the character of the byte at `i` begins, and where it ends.
pub fn char_start(text: &[u8], i: usize) -> usize
    requires { i < length text.now }
    ensures { result ≡ char_start text.now i }
{
    for k in (1..=i).rev() {
        if !continues(text[k]) {
            return k;
        }
    }
    0
}

pub fn char_end(text: &[u8], i: usize) -> usize
    requires { (well_formed text.now ≡ true) × (i < length text.now) }
    ensures { result ≡ char_end text.now i }
{
    for k in i + 1..text.len() {
        if !continues(text[k]) {
            return k;
        }
    }
    text.len()
}
