// How long a character is: what a byte announces, for any byte; what the lead byte says in a well-formed text; how many
// bytes a code point has.
ghost use Rattle.std.specs.Prelude.{◌≡◌};
ghost use Rattle.utf8.specs.Formed.{announced};
ghost use Rattle.utf8.specs.Lengths.{CharBegins, CharLen, lead_len};
ghost use Rattle.utf8.specs.Scalar.{len_utf8};

// How many bytes a byte announces as a lead byte; 0 where it begins no character (RULES 3.2). To be read beside Table
// 3-7: one comparison after the other, in the order of the table's rows.
#[tactic(auto, unfolding(crate::specs::Formed::announced))]
pub fn announced_length(b: u8) -> u8
    ensures { result ≡ announced b }
{
    if b <= 0x7F {
        return 1;
    }
    if b < 0xC2 {
        return 0;
    }
    if b <= 0xDF {
        return 2;
    }
    if b <= 0xEF {
        return 3;
    }
    if b <= 0xF4 {
        return 4;
    }
    0
}

// The length of the character that begins at `i`. By a sum: where characters of several lengths are mixed, a walk by
// branches waits for each one that the processor foresees wrongly.
// An inner function: its callers have found the text well-formed and `i` a boundary in it.
pub fn char_len(s: &[u8], i: usize) -> usize
    requires { CharBegins s.now i }
    ensures { CharLen s.now i result }
{
    let b = s[i];
    1 + (0xC0 <= b) as usize + (0xE0 <= b) as usize + (0xF0 <= b) as usize
}

// How many bytes the character has that a byte begins in a well-formed text; 1 where it begins none. By branches: a
// text's characters are mostly alike, and each step waits for the one before it.
pub fn lead_len(b: u8) -> usize
    ensures { result ≡ lead_len b }
{
    if b < 0xC0 {
        return 1;
    }
    if b < 0xE0 {
        return 2;
    }
    if b < 0xF0 {
        return 3;
    }
    4
}

// `lead_len` without a branch, so that a loop over it is vectorised. By the byte's first four bits: half the
// instructions of three comparisons.
pub fn lead_len_lane(b: u8) -> u8
    ensures { result ≡ lead_len b }
{
    let lead = (b / 16).saturating_sub(11);
    lead.max(lead.min(1) + 1)
}

// How many bytes a character has; 0 for a number that is no scalar value (Rust: `char::len_utf8`).
pub fn len_utf8(character: u32) -> usize
    ensures { result ≡ len_utf8 character }
{
    if 0x10FFFF < character {
        return 0;
    }
    if (0xD800 <= character) & (character <= 0xDFFF) {
        return 0;
    }
    1 + (0x80 <= character) as usize
        + (0x800 <= character) as usize
        + (0x10000 <= character) as usize
}
