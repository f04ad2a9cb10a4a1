// Runs laid in blocks of a fixed size: no loop's number of turns is the run's length, which no branch predictor knows.
// What a block writes past its run stays below `until`, where the caller writes again; else the run is laid exactly.
// Each function here is an inner one: its callers have measured the room before.
ghost use Rattle.std.specs.Prelude.{◌≡◌, ◌+◌, ◌≤◌, length, replicate};
ghost use Rattle.buffers.specs.Splice.{part, splice};
ghost use Rattle.buffers.specs.Over.{Over, Source};

use crate::{copy, fill};

// The N elements of `src` from `i` on stand in `dst` from `at` on: through a local array, so that source and
// destination are not tested for an overlap.
pub fn copy_block<T: Copy, const N: usize>(src: &[T], i: usize, dst: &mut [T], at: usize)
    requires { (i + N ≤ length src.now) × (at + N ≤ length dst.old) }
    ensures { dst.new ≡ splice dst.old at (part src.now i (i + N)) }
{
    let block = *src[i..i + N].as_array::<N>().unwrap();
    copy(&block, dst, at);
}

// What `src` has from `from` up to `to` is in `dst` from `at` on. A run of one block needs no loop: most runs are short.
pub fn copy_over<T: Copy>(src: &[T], from: usize, to: usize, dst: &mut [T], at: usize, until: usize)
    requires { Source src.now from to dst.old at until }
    ensures { Over (part src.now from to) dst.old at until dst.new }
{
    let end = at + (to - from);
    if src.len() - to < 64 || until < end || until - end < 64 {
        copy(&src[from..to], dst, at);
        return;
    }
    if to - from <= 64 {
        copy_block::<T, 64>(src, from, dst, at);
        return;
    }
    for k in 0..(to - from).div_ceil(64) {
        copy_block::<T, 64>(src, from + 64 * k, dst, at + 64 * k);
    }
}

// The first `count` elements of `src` stand in `dst` from `at` on: 16 at once where they are no more.
pub fn copy_front_over<T: Copy>(src: &[T], count: usize, dst: &mut [T], at: usize, until: usize)
    requires { Source src.now 0 count dst.old at until }
    ensures { Over (part src.now 0 count) dst.old at until dst.new }
{
    if count <= 16 && 16 <= src.len() && at <= until && 16 <= until - at {
        copy_block::<T, 16>(src, 0, dst, at);
        return;
    }
    copy_over(src, 0, count, dst, at, until);
}

// `count` times `value` is in `dst` from `at` on.
pub fn fill_over<T: Copy>(value: T, count: usize, dst: &mut [T], at: usize, until: usize)
    requires { (at + count ≤ length dst.old) × (until ≤ length dst.old) }
    ensures { Over (replicate count value) dst.old at until dst.new }
{
    if count <= 16 && at <= until && 16 <= until - at {
        fill(value, 16, dst, at);
        return;
    }
    fill(value, count, dst, at);
}
