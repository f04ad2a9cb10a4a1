// Numbers of two and of four bytes, the least significant first.
ghost use Rattle.std.specs.Prelude.{◌≡◌, ◌+◌, ◌≤◌, length};
ghost use Rattle.buffers.specs.Splice.{part, splice};
ghost use Rattle.numbers.specs.LittleEndian.{little_endian, value_of};

use buffers::copy;

// The number whose two bytes stand at `at`.
// An inner function: two bytes are there.
pub fn get_u16_le(bytes: &[u8], at: usize) -> u16
    requires { at + 2 ≤ length bytes.now }
    ensures { result ≡ value_of (part bytes.now at (at + 2)) }
{
    u16::from_le_bytes(*bytes[at..at + 2].as_array().unwrap())
}

// The number whose four bytes stand at `at`.
// An inner function: four bytes are there.
pub fn get_u32_le(bytes: &[u8], at: usize) -> u32
    requires { at + 4 ≤ length bytes.now }
    ensures { result ≡ value_of (part bytes.now at (at + 4)) }
{
    u32::from_le_bytes(*bytes[at..at + 4].as_array().unwrap())
}

// The two bytes of `value` stand in `out` from `at` on; all else is as it was.
// An inner function: there is room for two bytes.
pub fn put_u16_le(value: u16, out: &mut [u8], at: usize)
    requires { at + 2 ≤ length out.old }
    ensures { out.new ≡ splice out.old at (little_endian 2 value) }
{
    copy(&value.to_le_bytes(), out, at);
}
