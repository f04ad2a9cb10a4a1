// Buffers that are passed to a call, filled from a field, and compared with one afterwards. A column's field has the
// differences of its elements, 4 bytes each.
ghost use Rattle.std.specs.Prelude.{◌≡◌, ◌+◌, ◌^◌, length, take};
ghost use Rattle.buffers.specs.Same.{same};
ghost use Rattle.buffers.specs.Splice.{Laid};
ghost use Rattle.stored_answers.specs.Counts.{IsPrefixLen};
ghost use Rattle.note.specs.Notes.{limit};
ghost use Rattle.stored_answers.specs.Framing.{field_of};
ghost use Rattle.stored_answers.specs.Differences.{number_column, offset_column, numbers_of};

use crate::fields::{field, number};
use buffers::equality::same;
use buffers::{Offset, copy};
use note::LIMIT;

// The most elements that a call is passed in one buffer.
pub const ROOM: usize = LIMIT + 1;

// The most numbers of a list of pairs.
pub const FEW: usize = 256;

// A column to fill. Behind a call, so that no proof sees its elements.
pub fn zeros() -> [Offset; ROOM]
    ensures { limit + 1 ≡ length result }
{
    [0; ROOM]
}

// A field's bytes at the start of the buffer, as far as there is room; how many.
pub fn bytes(case: &[u8], index: usize, dst: &mut [u8]) -> usize
    ensures prefix_len { IsPrefixLen result dst.new }
    ensures laid { Laid (take (length dst.old) (field_of index case.now)) dst.old 0 result
        dst.new }
{
    let field = field(case, index);
    let n = field.len().min(dst.len());
    copy(&field[..n], dst, 0);
    n
}

// Of `Offset`, and `numbers` of `u32`: a generic function would take the modulus and the cast as parameters, and be no
// plainer than both.
pub fn offsets(case: &[u8], index: usize, dst: &mut [Offset]) -> usize
    ensures prefix_len { IsPrefixLen result dst.new }
    ensures laid { Laid (number_column (limit + 1) (length dst.old) (field_of index case.now))
        dst.old 0 result dst.new }
{
    let field = field(case, index);
    let n = (field.len() / 4).min(dst.len());
    let mut last: u64 = 0;
    for i in 0..n {
        last = (last + number(field, i * 4) as u64) % (LIMIT as u64 + 1);
        dst[i] = last as Offset;
    }
    n
}

pub fn numbers(case: &[u8], index: usize, dst: &mut [u32]) -> usize
    ensures prefix_len { IsPrefixLen result dst.new }
    ensures laid { Laid (number_column (256 ^ 4) (length dst.old) (field_of index case.now))
        dst.old 0 result dst.new }
{
    let field = field(case, index);
    let n = (field.len() / 4).min(dst.len());
    let mut last: u64 = 0;
    for i in 0..n {
        last = (last + number(field, i * 4) as u64) % 4294967296;
        dst[i] = last as u32;
    }
    n
}

// Whether a column is the one at a field of a case.
pub fn are_offsets(case: &[u8], index: usize, column: &[Offset]) -> bool
    ensures { result ≡ same column.now (offset_column limit (field_of index case.now)) }
{
    let mut expected = zeros();
    let n = offsets(case, index, &mut expected);
    same(column, &expected[..n])
}

pub fn are_numbers(case: &[u8], index: usize, column: &[u32]) -> bool
    ensures { result ≡ same column.now (numbers_of (field_of index case.now)) }
{
    let mut expected = [0; FEW];
    let n = numbers(case, index, &mut expected);
    same(column, &expected[..n])
}
