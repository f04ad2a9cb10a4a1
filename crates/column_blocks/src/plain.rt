// A block of numbers that count up: the starts or ends in a text of which every byte is a character.
ghost use Rattle.std.specs.Prelude.{◌+◌, ◌-◌, ◌≤◌, length};
ghost use Rattle.buffers.specs.Columns.{Filled};
ghost use Rattle.note.specs.Notes.{limit};

use crate::BLOCK;
use buffers::Offset;

// 64 numbers from `first` on.
// An inner function: `out` has room for the block, and its last number is within the limit.
pub fn count_up(first: Offset, out: &mut [Offset], at: usize)
    requires { (at + 64 ≤ length out.old) × (first + 63 ≤ limit) }
    ensures { Filled (λ k. first + (k - at)) out.old at (at + 64) out.new }
{
    for k in 0..BLOCK {
        out[at + k] = first + k as Offset;
    }
}
