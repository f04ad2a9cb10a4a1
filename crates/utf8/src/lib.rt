// Characters: announced lengths, well-formed UTF-8, boundaries, character counts, a scalar value's bytes.
#![tactic(auto)]

pub mod count;
pub mod lead;
pub mod ranges;

ghost use Rattle.std.specs.Prelude.{◌≡◌};
ghost use Rattle.utf8.specs.Encoding.{EncodedAs};
ghost use Rattle.utf8.specs.Formed.{boundary, char_range, continues};
ghost use Rattle.utf8.specs.Scalar.{scalar};

// Whether a byte continues a character (RULES 3).
pub fn continues(b: u8) -> bool
    ensures { result ≡ continues b }
{
    (0x80 <= b) & (b <= 0xBF)
}

// Whether a character begins at `i`, or the text ends there (RULES 3; Rust: `str::is_char_boundary`).
pub fn is_char_boundary(s: &[u8], i: usize) -> bool
    ensures { result ≡ boundary s.now i }
{
    if i < s.len() {
        return !continues(s[i]);
    }
    i == s.len()
}

// Whether start..end is a range of the text from a boundary to a boundary.
pub fn is_char_range(s: &[u8], start: usize, end: usize) -> bool
    ensures { result ≡ char_range s.now start end }
{
    if end < start {
        return false;
    }
    is_char_boundary(s, start) & is_char_boundary(s, end)
}

// Whether a number is a scalar value: up to U+10FFFF, surrogates excepted.
fn is_scalar(c: u32) -> bool
    ensures { result ≡ scalar c }
{
    (c <= 0x10FFFF) & !((0xD800 <= c) & (c <= 0xDFFF))
}

// A scalar value's bytes (the Unicode Standard, Table 3-6): the first `len` of `bytes`, the rest 0.
// A number that is no scalar value has none.
// Not std's `char::encode_utf8`: it does not say what the buffer holds after the bytes, and `EncodedAs` does.
#[derive(Clone, Copy)]
pub struct Encoded {
    pub len: usize,
    pub bytes: [u8; 4],
}

pub fn encode_utf8(c: u32) -> Encoded
    ensures { EncodedAs c result }
{
    if !is_scalar(c) {
        return Encoded {
            len: 0,
            bytes: [0; 4],
        };
    }
    if c < 0x80 {
        return Encoded {
            len: 1,
            bytes: [c as u8, 0, 0, 0],
        };
    }
    if c < 0x800 {
        return Encoded {
            len: 2,
            bytes: [(0xC0 + c / 64) as u8, (0x80 + c % 64) as u8, 0, 0],
        };
    }
    if c < 0x10000 {
        return Encoded {
            len: 3,
            bytes: [
                (0xE0 + c / 4096) as u8,
                (0x80 + c / 64 % 64) as u8,
                (0x80 + c % 64) as u8,
                0,
            ],
        };
    }
    Encoded {
        len: 4,
        bytes: [
            (0xF0 + c / 262144) as u8,
            (0x80 + c / 4096 % 64) as u8,
            (0x80 + c / 64 % 64) as u8,
            (0x80 + c % 64) as u8,
        ],
    }
}
