// The characters of a text that cannot be seen (RULES 14.10): controls, white space other than U+0020, and what is
// ignored by default. Which they are, and where the first one is in a text.
#![tactic(auto)]

ghost use Rattle.std.specs.Prelude.{◌≡◌, get_or};
ghost use Rattle.invisible.specs.Ranges.{controls, ignorables, in_some, is_invisible, spaces};
ghost use Rattle.invisible.specs.Characters.{code_at, code_of, first_invisible};

use utf8::lead::lead_len;

// Whether a code point is a control character. Here and below a range is written as `in_range` has it: `matches!` and
// `contains` are no plainer, and add cases to prove for each range.
fn is_control(c: u32) -> bool
    ensures { result ≡ in_some controls c }
{
    ((0x00 <= c) & (c <= 0x1F)) | ((0x7F <= c) & (c <= 0x9F))
}

// Whether it is white space, and not U+0020.
fn is_space(c: u32) -> bool
    ensures { result ≡ in_some spaces c }
{
    ((0x09 <= c) & (c <= 0x0D))
        | ((0x85 <= c) & (c <= 0x85))
        | ((0xA0 <= c) & (c <= 0xA0))
        | ((0x1680 <= c) & (c <= 0x1680))
        | ((0x2000 <= c) & (c <= 0x200A))
        | ((0x2028 <= c) & (c <= 0x2028))
        | ((0x2029 <= c) & (c <= 0x2029))
        | ((0x202F <= c) & (c <= 0x202F))
        | ((0x205F <= c) & (c <= 0x205F))
        | ((0x3000 <= c) & (c <= 0x3000))
}

// Whether it is ignored by default.
fn is_ignorable(c: u32) -> bool
    ensures { result ≡ in_some ignorables c }
{
    ((0xAD <= c) & (c <= 0xAD))
        | ((0x34F <= c) & (c <= 0x34F))
        | ((0x61C <= c) & (c <= 0x61C))
        | ((0x115F <= c) & (c <= 0x1160))
        | ((0x17B4 <= c) & (c <= 0x17B5))
        | ((0x180B <= c) & (c <= 0x180F))
        | ((0x200B <= c) & (c <= 0x200F))
        | ((0x202A <= c) & (c <= 0x202E))
        | ((0x2060 <= c) & (c <= 0x206F))
        | ((0x3164 <= c) & (c <= 0x3164))
        | ((0xFE00 <= c) & (c <= 0xFE0F))
        | ((0xFEFF <= c) & (c <= 0xFEFF))
        | ((0xFFA0 <= c) & (c <= 0xFFA0))
        | ((0xFFF0 <= c) & (c <= 0xFFF8))
        | ((0x1BCA0 <= c) & (c <= 0x1BCA3))
        | ((0x1D173 <= c) & (c <= 0x1D17A))
        | ((0xE0000 <= c) & (c <= 0xE0FFF))
}

// Whether a code point is an invisible character.
pub fn is_invisible(code: u32) -> bool
    ensures { result ≡ is_invisible code }
{
    is_control(code) | is_space(code) | is_ignorable(code)
}

// The code point whose bytes are the first of these four.
fn code_of(a: u8, b: u8, c: u8, d: u8) -> u32
    ensures { result ≡ code_of a b c d }
{
    let lead = a as u32;
    let second = b as u32 % 64;
    let third = c as u32 % 64;
    let fourth = d as u32 % 64;
    if lead < 0xC0 {
        return lead;
    }
    if lead < 0xE0 {
        return lead % 32 * 64 + second;
    }
    if lead < 0xF0 {
        return lead % 16 * 4096 + second * 64 + third;
    }
    lead % 8 * 262144 + second * 4096 + third * 64 + fourth
}

// A byte of the text; 0 after its end.
fn byte_at(text: &[u8], i: usize) -> u8
    ensures { result ≡ get_or text.now i 0 }
{
    text.get(i).copied().unwrap_or(0)
}

// The code point of the character that begins at `i`; 0 after the text.
pub fn code_at(text: &[u8], i: usize) -> u32
    ensures { result ≡ code_at text.now i }
{
    if text.len() <= i {
        return 0;
    }
    code_of(
        text[i],
        byte_at(text, i + 1),
        byte_at(text, i + 2),
        byte_at(text, i + 3),
    )
}

// Where the first invisible character begins; the text's length where there is none.
pub fn first_invisible(text: &[u8]) -> usize
    ensures { result ≡ first_invisible text.now }
{
    let mut i = 0;
    while i < text.len() {
        if is_invisible(code_at(text, i)) {
            return i;
        }
        i += lead_len(text[i]);
    }
    text.len()
}
