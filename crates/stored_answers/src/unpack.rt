// A packed case: its bytes in parts, each so many times a unit.
ghost use Rattle.std.specs.Prelude.{◌-◌, ◌≤◌, length};
ghost use Rattle.buffers.specs.Splice.{Laid};
ghost use Rattle.stored_answers.specs.Counts.{IsPrefixLen};
ghost use Rattle.stored_answers.specs.Packing.{part_laid, unpacked};

use crate::fields::{after, field, number};
use buffers::copy;

// A part, its times in 4 bytes and then its unit, put into the buffer from `at` on as far as there is room; the byte
// after it.
fn lay(part: &[u8], dst: &mut [u8], at: usize) -> usize
    requires { at ≤ length dst.old }
    ensures { Laid (part_laid part.now (length dst.old - at)) dst.old at result
        dst.new }
{
    let times = number(part, 0);
    let from = after(part, 0, 4);
    let unit = &part[from..];
    let mut end = at;
    for _ in 0..times {
        if dst.len() - end < unit.len() {
            break;
        }
        copy(unit, dst, end);
        end += unit.len();
    }
    end
}

// All parts, put at the start of the buffer; how many bytes they have.
pub fn unpack(packed: &[u8], dst: &mut [u8]) -> usize
    ensures prefix_len { IsPrefixLen result dst.new }
    ensures laid { Laid (unpacked packed.now (length dst.old)) dst.old 0 result
        dst.new }
{
    let parts = packed.len() / 8;
    let mut end = 0;
    for k in 0..parts {
        end = lay(field(packed, k), dst, end);
    }
    end
}
