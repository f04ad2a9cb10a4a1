// Characters of a well-formed text, counted by the bytes that begin a character.
ghost use Rattle.std.specs.Prelude.{◌≡◌, ◌≤◌, length};
ghost use Rattle.utf8.specs.Chars.{leads};

use crate::continues;

// A block of at most 255 bytes, whose count fits one byte.
fn block_leads(s: &[u8]) -> u8
    requires { length s.now ≤ 255 }
    ensures { result ≡ leads s.now }
{
    let mut n = 0;
    for b in s {
        n += !continues(*b) as u8;
    }
    n
}

// How many bytes of `s` begin a character: as many as a well-formed text has characters.
pub fn count_leads(s: &[u8]) -> usize
    ensures { result ≡ leads s.now }
{
    let blocks = s.len() / 128;
    let mut n = 0;
    for k in 0..blocks {
        n += block_leads(&s[128 * k..128 * k + 128]) as usize;
    }
    n + block_leads(&s[128 * blocks..]) as usize
}
