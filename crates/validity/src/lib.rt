// Whether a text is well-formed UTF-8, judged in blocks: each byte by itself and the three before it.
#![tactic(auto)]

ghost use Rattle.std.specs.Prelude.{◌≡◌, ◌+◌, ◌-◌, ◌≤◌, ◌<◌, length};
ghost use Rattle.utf8.specs.Formed.{well_formed};
ghost use Rattle.validity.specs.Texts.{ascii};
ghost use Rattle.validity.specs.ValidAt.{padded_at, valid_at, valid_from};

use validity_blocks::blocks::{valid_block, valid_four};
use validity_blocks::bytes::invalid;
use validity_blocks::extremes::largest;

// A block is as long as a loop over lanes likes, and is judged as a whole before the next.
const ASCII_BLOCK: usize = 1024;

const BLOCK: usize = 384;

// Whether every byte is below 80 (RULES 3; Rust: `<[u8]>::is_ascii`).
pub fn is_ascii(s: &[u8]) -> bool
    ensures { result ≡ ascii s.now }
{
    let blocks = s.len() / ASCII_BLOCK;
    for k in 0..blocks {
        let i = k * ASCII_BLOCK;
        if 0x80 <= largest(&s[i..i + ASCII_BLOCK]) {
            return false;
        }
    }
    largest(&s[blocks * ASCII_BLOCK..]) < 0x80
}

// The byte at `k` of the text after three bytes 0; past its end is 0 too.
fn padded_at(s: &[u8], k: usize) -> u8
    ensures { result ≡ padded_at s.now k }
{
    if k < 3 {
        return 0;
    }
    let j = k - 3;
    if j < s.len() {
        return s[j];
    }
    0
}

// Whether the byte at `i`, or the end of the text there, can stand after the three bytes before it.
fn valid_at(s: &[u8], i: usize) -> bool
    requires { i < length s.now + 3 }
    ensures { result ≡ valid_at s.now i }
{
    !invalid(
        padded_at(s, i),
        padded_at(s, i + 1),
        padded_at(s, i + 2),
        padded_at(s, i + 3),
    )
}

// `valid_at` at each place from `from` up to `to`: for the first three bytes and the end.
fn valid_between(s: &[u8], from: usize, to: usize) -> bool
    requires { (from ≤ to) × (to ≤ length s.now + 3) }
    ensures { result ≡ valid_from s.now from (to - from) }
{
    for i in from..to {
        if !valid_at(s, i) {
            return false;
        }
    }
    true
}

// `valid_at` at each place from `i` on: the bytes that are left as one block, then the end.
fn valid_rest(s: &[u8], i: usize) -> bool
    requires { (3 ≤ i) × (i ≤ length s.now + 3) }
    ensures { result ≡ valid_from s.now i (length s.now + 3 - i) }
{
    if s.len() <= i {
        return valid_between(s, i, s.len() + 3);
    }
    if !valid_four(&s[i - 3..]) {
        return false;
    }
    valid_between(s, s.len(), s.len() + 3)
}

// Whether the text is well-formed UTF-8 (RULES 3; Table 3-7 of the Unicode Standard).
pub fn well_formed(s: &[u8]) -> bool
    ensures { result ≡ well_formed s.now }
{
    if is_ascii(s) {
        return true;
    }
    if !valid_between(s, 0, 3) {
        return false;
    }
    let blocks = s.len().saturating_sub(3) / BLOCK;
    for k in 0..blocks {
        let i = 3 + k * BLOCK;
        if !valid_block(&s[i - 3..i + BLOCK]) {
            return false;
        }
    }
    valid_rest(s, 3 + blocks * BLOCK)
}
