// Runs of elements, as bytes and offsets, copied or filled into passed buffers.
// Each function here is an inner one: its callers have measured the room before.
#![tactic(auto)]

pub mod blocks;
pub mod equality;
pub mod lanes;
pub mod parts;

ghost use Rattle.std.specs.Prelude.{◌≡◌, ◌+◌, ◌≤◌, length, replicate};
ghost use Rattle.buffers.specs.Splice.{splice};

// A position in a text, as a column of alignments holds it.
pub type Offset = u16;

// `src` is in `dst` from `at` on; all else is as it was. A loop over the elements: the library's `copy_from_slice` tests
// for an overlap, also where a caller's block is in a local array, and `filter` then misses its aim.
pub fn copy<T: Copy>(src: &[T], dst: &mut [T], at: usize)
    requires { at + length src.now ≤ length dst.old }
    ensures { dst.new ≡ splice dst.old at src.now }
{
    for (k, x) in src.iter().enumerate() {
        dst[at + k] = *x;
    }
}

// `count` times `value` is in `dst` from `at` on; all else is as it was.
pub fn fill<T: Copy>(value: T, count: usize, dst: &mut [T], at: usize)
    requires { at + count ≤ length dst.old }
    ensures { dst.new ≡ splice dst.old at (replicate count value) }
{
    for j in 0..count {
        dst[at + j] = value;
    }
}
