// A block of the text is judged at once, by the test that its largest byte and its least lead byte ask for: the
// fewer kinds of characters, the shorter. Each function is an inner one: a block begins with the three bytes before it.
ghost use Rattle.std.specs.Prelude.{◌≡◌, Bool, ◌-◌, ◌<◌, ◌≤◌, length};
ghost use Rattle.validity_blocks.specs.Extremes.{largest, least_lead};
ghost use Rattle.validity_blocks.specs.Valid.{AtEach, invalid, valid_first};

use crate::bytes::{invalid, invalid_plain, invalid_plain_four, invalid_three, invalid_two};
use crate::extremes::bounds_of;

// Whether each byte of `s` but the first three can stand where it does, by a test that tells where one cannot.
// No way out stands in the loop, so that it is vectorised. The parts are cut once: read at one index, they are loaded
// apart.
fn all_stand<F: Fn(u8, u8, u8, u8) -> bool>(s: &[u8], cannot: F) -> bool
    requires long { 3 ≤ length s.now }
    requires callable { AtEach (F.pre cannot) s.now }
    requires tells { AtEach (λ b3 b2 b1 b0. (bad : Bool) → F.post cannot b3 b2 b1 b0 bad → bad ≡ invalid b3 b2 b1 b0) s.now }
    ensures { result ≡ valid_first s.now (length s.now - 3) }
{
    let s2 = &s[1..];
    let s1 = &s[2..];
    let s0 = &s[3..];
    let mut bad = false;
    for j in 0..s0.len() {
        bad = bad | cannot(s[j], s2[j], s1[j], s0[j]);
    }
    !bad
}

// Whether each byte of `s` but the first three can stand where it does.
pub fn valid_four(s: &[u8]) -> bool
    requires { 3 ≤ length s.now }
    ensures { result ≡ valid_first s.now (length s.now - 3) }
{
    all_stand(s, invalid)
}

// `valid_four` of bytes without C0, C1 and characters of four bytes.
fn valid_three(s: &[u8]) -> bool
    requires { (3 ≤ length s.now) × (largest s.now < 0xF0) × (2 ≤ least_lead s.now) }
    ensures { result ≡ valid_first s.now (length s.now - 3) }
{
    all_stand(s, invalid_three)
}

// `valid_four` of bytes without C0, C1 and characters of three or four bytes.
fn valid_two(s: &[u8]) -> bool
    requires { (3 ≤ length s.now) × (largest s.now < 0xE0) × (2 ≤ least_lead s.now) }
    ensures { result ≡ valid_first s.now (length s.now - 3) }
{
    all_stand(s, invalid_two)
}

// `valid_four` where every lead byte is between E1 and EC.
fn valid_plain(s: &[u8]) -> bool
    requires { (3 ≤ length s.now) × (largest s.now < 0xED) × (0x21 ≤ least_lead s.now) }
    ensures { result ≡ valid_first s.now (length s.now - 3) }
{
    all_stand(s, invalid_plain)
}

// `valid_four` where every lead byte is between E1 and F3.
fn valid_plain_four(s: &[u8]) -> bool
    requires { (3 ≤ length s.now) × (largest s.now < 0xF4) × (0x21 ≤ least_lead s.now) }
    ensures { result ≡ valid_first s.now (length s.now - 3) }
{
    all_stand(s, invalid_plain_four)
}

// Whether each byte of `s` but the first three can stand where it does, by the test that the largest byte and the
// least lead byte ask for.
pub fn valid_block(s: &[u8]) -> bool
    requires { 3 ≤ length s.now }
    ensures { result ≡ valid_first s.now (length s.now - 3) }
{
    let front = bounds_of(&s[..3]);
    let back = bounds_of(&s[3..]);
    let most = front.most.max(back.most);
    if most < 0x80 {
        return true;
    }
    let least = front.least.min(back.least);
    if least < 2 {
        return valid_four(s);
    }
    if most < 0xE0 {
        return valid_two(s);
    }
    if most < 0xED && 0x21 <= least {
        return valid_plain(s);
    }
    if most < 0xF0 {
        return valid_three(s);
    }
    if most < 0xF4 && 0x21 <= least {
        return valid_plain_four(s);
    }
    valid_four(s)
}
