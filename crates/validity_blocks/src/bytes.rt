// Whether a byte cannot stand where it does, told by the bytes before it. The tests have no branch, so that the loops
// over them are vectorised. Each but the first is an inner one: which bytes it is asked of was seen before.
ghost use Rattle.std.specs.Prelude.{◌≡◌, ◌<◌, nat_le, nat_lt};
ghost use Rattle.std.specs.Bool.{xor};
ghost use Rattle.utf8.specs.Table.{trail, within};
ghost use Rattle.validity_blocks.specs.Extremes.{LeadBetween};
ghost use Rattle.validity_blocks.specs.Valid.{invalid};

use buffers::lanes::select;

// Whether b0 cannot stand after b3, b2, b1. `odd` is what E0, ED, F0 and F4 do not have for their second byte.
pub fn invalid(b3: u8, b2: u8, b1: u8, b0: u8) -> bool
    ensures { result ≡ invalid b3 b2 b1 b0 }
{
    let pending = (0xC0 <= b1) | (0xE0 <= b2) | (0xF0 <= b3);
    let trail = (0x80 <= b0) & (b0 <= 0xBF);
    let never = ((0xC0 <= b0) & (b0 < 0xC2)) | (0xF5 <= b0);
    let odd = ((b1 == 0xE0) & (b0 < 0xA0))
        | ((b1 == 0xED) & (0x9F < b0))
        | ((b1 == 0xF0) & (b0 < 0x90))
        | ((b1 == 0xF4) & (0x8F < b0));
    (pending != trail) | never | odd
}

// A flag in the highest bit, clear where b0 continues a character and `lead` is below C0, or neither. A difference cut
// off at 0 and a complement are an instruction each, where two comparisons are five.
fn standing(lead: u8, b0: u8) -> u8
    ensures { nat_lt result 0x80 ≡ xor (nat_le 0xC0 lead) (within trail b0) }
{
    let far = lead.saturating_sub(0x40);
    if (0x80 <= b0) & (b0 <= 0xBF) {
        return far;
    }
    0xFF - far
}

// `invalid` without C0, C1 and characters of four bytes. What E0 does not have for its second byte ED has, and the two
// are 0D apart: one comparison tells both.
pub fn invalid_three(b3: u8, b2: u8, b1: u8, b0: u8) -> bool
    requires { (b3 < 0xF0) × LeadBetween 2 0xF0 b1 × LeadBetween 2 0xF0 b0 }
    ensures { result ≡ invalid b3 b2 b1 b0 }
{
    let low = (0x80 <= b0) & (b0 <= 0x9F);
    let flag = standing(b1.max(b2.saturating_sub(0x20)), b0);
    (flag < 0x80) | (b1 + select(low, 0x0D, 0) == 0xED)
}

// `invalid_three` without characters of three bytes too.
pub fn invalid_two(b3: u8, b2: u8, b1: u8, b0: u8) -> bool
    requires { (b3 < 0xF0) × (b2 < 0xE0) × LeadBetween 2 0xE0 b1 × LeadBetween 2 0xE0 b0 }
    ensures { result ≡ invalid b3 b2 b1 b0 }
{
    standing(b1, b0) < 0x80
}

// `invalid_three` where every lead byte is between E1 and EC: none asks for an `odd` second byte.
pub fn invalid_plain(b3: u8, b2: u8, b1: u8, b0: u8) -> bool
    requires { (b3 < 0xF0) × LeadBetween 0x21 0xED b2 × LeadBetween 0x21 0xED b1 × LeadBetween 0x21 0xED b0 }
    ensures { result ≡ invalid b3 b2 b1 b0 }
{
    standing(b1.max(b2), b0) < 0x80
}

// `invalid` where every lead byte is between E1 and F3. The ranges from 80 on are one comparison each of
// signed bytes.
pub fn invalid_plain_four(b3: u8, b2: u8, b1: u8, b0: u8) -> bool
    requires { LeadBetween 0x21 0xF4 b2 × LeadBetween 0x21 0xF4 b1 × LeadBetween 0x21 0xF4 b0 }
    ensures { result ≡ invalid b3 b2 b1 b0 }
{
    let pending = 0xC0 <= b1.max(b2).max(b3.saturating_sub(0x30));
    let trail = (0x80 <= b0) & (b0 <= 0xBF);
    let low = (0x80 <= b0) & (b0 <= 0x9F);
    let lowest = (0x80 <= b0) & (b0 <= 0x8F);
    (pending != trail) | ((b1 == 0xED) & !low) | ((b1 == 0xF0) & lowest)
}
