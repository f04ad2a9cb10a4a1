// Replacing by edits: scratch buffers of zeros are made here, as long as the case says. What they hold afterwards is left
// to the call, so it is not stored.
ghost use Rattle.std.specs.Prelude.{◌≡◌};
ghost use Rattle.replace_by_edits.specs.ByEdits.{scratch};
ghost use Rattle.replayed_edits.specs.Replaying.{ByEditsCase, ByEditsPassed, scratch_len};

use buffers::Offset;
use note::NormalizedString;
use standard_input::large_buffer;
use stored_answers::columns::{ROOM, zeros};
use stored_answers::fields::{field, value};
use zulmyren::answers::Written;
use zulmyren::matches::zulmyren_replace_by_edits;

// How long a scratch buffer is.
fn scratch_len(case: &[u8], index: usize) -> usize
    ensures { result ≡ scratch_len case.now index }
{
    (value(case, index) as usize).min(ROOM)
}

// A note, a list, a content.
fn pass_by_edits(
    case: &[u8],
    starts: &[Offset],
    ends: &[Offset],
    out: &mut [u8],
    out_starts: &mut [Offset],
    out_ends: &mut [Offset],
    first: &mut [u8],
    first_starts: &mut [Offset],
    first_ends: &mut [Offset],
    second: &mut [u8],
    second_starts: &mut [Offset],
    second_ends: &mut [Offset],
) -> Written
    ensures { ByEditsPassed case.now starts.now ends.now
        out.old out_starts.old out_ends.old
        (scratch first.old first_starts.old first_ends.old)
        (scratch second.old second_starts.old second_ends.old)
        result out.new out_starts.new out_ends.new
        (scratch first.new first_starts.new first_ends.new)
        (scratch second.new second_starts.new second_ends.new) }
{
    zulmyren_replace_by_edits(
        &NormalizedString {
            original: field(case, 0),
            normalized: field(case, 1),
            starts,
            ends,
            original_shift: value(case, 4),
        },
        field(case, 5),
        field(case, 6),
        out,
        out_starts,
        out_ends,
        first,
        first_starts,
        first_ends,
        second,
        second_starts,
        second_ends,
    )
}

// Scratch is made, and the case passed: the lengths of its six buffers are in the fields from 7 on.
pub fn replace_by_edits(
    case: &[u8],
    starts: &[Offset],
    ends: &[Offset],
    out: &mut [u8],
    out_starts: &mut [Offset],
    out_ends: &mut [Offset],
) -> Written
    ensures { ByEditsCase case.now starts.now ends.now
        out.old out_starts.old out_ends.old
        result out.new out_starts.new out_ends.new }
{
    let mut first = large_buffer();
    let mut first_starts = zeros();
    let mut first_ends = zeros();
    let mut second = large_buffer();
    let mut second_starts = zeros();
    let mut second_ends = zeros();
    let a = scratch_len(case, 7);
    let b = scratch_len(case, 8);
    let c = scratch_len(case, 9);
    let d = scratch_len(case, 10);
    let e = scratch_len(case, 11);
    let f = scratch_len(case, 12);
    pass_by_edits(
        case,
        starts,
        ends,
        out,
        out_starts,
        out_ends,
        &mut first[..a],
        &mut first_starts[..b],
        &mut first_ends[..c],
        &mut second[..d],
        &mut second_starts[..e],
        &mut second_ends[..f],
    )
}
