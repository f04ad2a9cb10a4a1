// Where a literal is next in a text. Of 64 positions at once the first is named at which its first byte and, as
// far on as it is long, its last one stand together, and it is tried there; where there is none, blocks of 64 are
// passed until there is one; fewer than 64 are tried one by one. The worst case is the text's length times the
// literal's, where they nearly match everywhere: a literal a..aba..a in a text a..a.
ghost use Rattle.std.specs.Prelude.{◌≡◌, not, ◌+◌, ◌≤◌, ◌<◌, length};
ghost use Rattle.find.specs.Matching.{occurs_at, first_from};
ghost use Rattle.find.specs.Searching.{Absent, apart_below, first_match, first_together};

use buffers::equality::same;
use buffers::lanes::select;

// Whether the literal is in the text at `p`.
// An inner function: the literal has a byte, and fits the text from `p` on.
pub fn occurs_at(text: &[u8], literal: &[u8], p: usize) -> bool
    requires { (0 < length literal.now) × (p + length literal.now ≤ length text.now) }
    ensures { result ≡ occurs_at text.now literal.now p }
{
    if text[p] != literal[0] {
        return false;
    }
    same(&text[p..p + literal.len()], literal)
}

// The first of 64 indices at which `first` is in `a` and `last` in `b`, or 64.
// No branch inside, so that the loop is vectorised; it is told by how many indices are left, since none is then 0.
// An inner function: both parts have 64 bytes.
pub fn first_candidate(a: &[u8], b: &[u8], first: u8, last: u8) -> usize
    requires { (64 ≤ length a.now) × (64 ≤ length b.now) }
    ensures { result ≡ first_together a.now b.now first last 64 0 }
{
    let mut left: u8 = 0;
    for j in 0..64u8 {
        let k = j as usize;
        let hit = (a[k] == first) & (b[k] == last);
        left = left.max(select(hit, 64 - j, 0));
    }
    64 - left as usize
}

// Whether `first` is in `a` and `last` in `b` at one of 64 indices: less work than to name the first.
fn has_candidate(a: &[u8], b: &[u8], first: u8, last: u8) -> bool
    requires { (64 ≤ length a.now) × (64 ≤ length b.now) }
    ensures { result ≡ not (apart_below a.now b.now first last 64) }
{
    let mut hit = false;
    for j in 0..64 {
        hit = hit | ((a[j] == first) & (b[j] == last));
    }
    hit
}

// The first of the blocks of 64 positions, from `from` on, that the literal's first and last byte do not shut out; or
// where fewer than 64 are left.
fn skip_blocks(text: &[u8], literal: &[u8], from: usize) -> usize
    requires { (0 < length literal.now) × (from ≤ length text.now) }
    ensures { Absent text.now literal.now from result }
{
    let width = literal.len() - 1;
    let first = literal[0];
    let last = literal[width];
    let blocks = (text.len() - from).saturating_sub(width) / 64;
    for k in 0..blocks {
        let i = from + 64 * k;
        let j = i + width;
        if has_candidate(&text[i..i + 64], &text[j..j + 64], first, last) {
            return i;
        }
    }
    from + 64 * blocks
}

// The next position to try the literal at: past all at which two of its bytes say that it does not stand, while 64
// are left.
fn next_candidate(text: &[u8], literal: &[u8], from: usize) -> usize
    requires { (0 < length literal.now) × (from ≤ length text.now) }
    ensures { Absent text.now literal.now from result }
{
    let width = literal.len() - 1;
    let first = literal[0];
    let last = literal[width];
    let mut i = from;
    while width + 64 <= text.len() - i {
        let j = i + width;
        let k = first_candidate(&text[i..i + 64], &text[j..j + 64], first, last);
        if k < 64 {
            return i + k;
        }
        i = skip_blocks(text, literal, i + 64);
    }
    i
}

// The first position from `from` on at which the literal is; the text's length where there is none.
// An inner function: the literal has a byte.
pub fn next_match(text: &[u8], literal: &[u8], from: usize) -> usize
    requires { (0 < length literal.now) × (from ≤ length text.now) }
    ensures { result ≡ first_from text.now literal.now from }
{
    let mut i = next_candidate(text, literal, from);
    while literal.len() <= text.len() - i {
        if occurs_at(text, literal, i) {
            return i;
        }
        i = next_candidate(text, literal, i + 1);
    }
    text.len()
}

// The first match; the text's length where there is none, as of a literal without a byte.
pub fn first_match(text: &[u8], literal: &[u8]) -> usize
    ensures { result ≡ first_match text.now literal.now }
{
    if literal.len() == 0 {
        return text.len();
    }
    next_match(text, literal, 0)
}
