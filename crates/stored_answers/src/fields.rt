// Fields one after the other: a field is its length in 4 bytes, little-endian, then its bytes. A file is fields (its
// cases, packed), and so are a packed case (its parts) and an unpacked one (what the call is passed, then what it
// answers). Nothing is asked of the bytes.
ghost use Rattle.std.specs.Prelude.{◌≡◌, ◌+◌, ◌≤◌, min, length, drop};
ghost use Rattle.buffers.specs.Same.{same};
ghost use Rattle.stored_answers.specs.Framing.{leading_number, field_of, is_number};

use buffers::equality::same;
use numbers::little_endian::get_u32_le;

// The number at a byte; 0 where its 4 bytes are not all there.
pub fn number(list: &[u8], at: usize) -> u32
    ensures { result ≡ leading_number (drop at list.now) }
{
    if list.len() < 4 {
        return 0;
    }
    if list.len() - 4 < at {
        return 0;
    }
    get_u32_le(list, at)
}

// The byte `n` bytes after `at`, or the end.
// An inner function: `at` is no further than the list's end.
pub fn after(list: &[u8], at: usize, n: usize) -> usize
    requires { at ≤ length list.now }
    ensures { result ≡ min (at + n) (length list.now) }
{
    at + n.min(list.len() - at)
}

// The field of this index; an empty one past the last.
pub fn field(list: &[u8], index: usize) -> &[u8]
    ensures { result.now ≡ field_of index list.now }
{
    let mut at = 0;
    for _ in 0..index {
        at = after(list, after(list, at, 4), number(list, at) as usize);
    }
    let from = after(list, at, 4);
    let to = after(list, from, number(list, at) as usize);
    &list[from..to]
}

// The number that a field is.
pub fn value(list: &[u8], index: usize) -> u32
    ensures { result ≡ leading_number (field_of index list.now) }
{
    number(field(list, index), 0)
}

// Whether a field is this number, in 4 bytes.
pub fn is_size(list: &[u8], index: usize, n: usize) -> bool
    ensures { result ≡ is_number (field_of index list.now) n }
{
    let bytes = field(list, index);
    if bytes.len() != 4 {
        return false;
    }
    number(bytes, 0) as usize == n
}

pub fn is_number(list: &[u8], index: usize, n: u32) -> bool
    ensures { result ≡ is_number (field_of index list.now) n }
{
    is_size(list, index, n as usize)
}

// Whether a field is this text.
pub fn is_text(list: &[u8], index: usize, text: &[u8]) -> bool
    ensures { result ≡ same (field_of index list.now) text.now }
{
    same(field(list, index), text)
}
