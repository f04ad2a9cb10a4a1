// The calls on a list of pairs: its starts and ends, the passed numbers, starts and ends, from fields
// `at` on; the refusal, the three buffers.
ghost use Rattle.std.specs.Prelude.{◌+◌, ◌<◌, take};
ghost use Rattle.stored_answers.specs.Differences.{numbers_of};
ghost use Rattle.stored_answers.specs.Framing.{field_of};
ghost use Rattle.replayed_pieces.specs.Replaying.{PairsReplayed, PairsTold};

use crate::told::are_pairs;
use buffers::Offset;
use note::NormalizedString;
use stored_answers::calls::PairsCall;
use stored_answers::columns::{FEW, bytes, numbers};
use stored_answers::fields::{field, value};
use zulmyren::ranges::zulmyren_convert_all;
use zulmyren::texts::zulmyren_char_offsets_all;

// `char_offsets_all`: a text; or `convert_all`: a note, and the text that the ranges are of.
fn answered(
    call: PairsCall,
    case: &[u8],
    note_starts: &[Offset],
    note_ends: &[Offset],
    from: &[u32],
    to: &[u32],
    numbers: &mut [u8],
    starts: &mut [u32],
    ends: &mut [u32],
) -> u32
    ensures { PairsTold call case.now note_starts.now note_ends.now
        from.now to.now numbers.old starts.old ends.old
        result numbers.new starts.new ends.new }
{
    match call {
        PairsCall::CharOffsetsAll => {
            zulmyren_char_offsets_all(field(case, 0), from, to, numbers, starts, ends)
        }
        PairsCall::ConvertAll => zulmyren_convert_all(
            &NormalizedString {
                original: field(case, 0),
                normalized: field(case, 1),
                starts: note_starts,
                ends: note_ends,
                original_shift: value(case, 4),
            },
            value(case, 5) == 1,
            from,
            to,
            numbers,
            starts,
            ends,
        ),
    }
}

fn listed(
    call: PairsCall,
    case: &[u8],
    index: usize,
    note_starts: &[Offset],
    note_ends: &[Offset],
    from: &[u32],
    to: &[u32],
    numbers: &mut [u8],
    starts: &mut [u32],
    ends: &mut [u32],
) -> bool
    requires { index < 100 }
    ensures { PairsReplayed call case.now index note_starts.now
        note_ends.now from.now to.now
        numbers.old starts.old ends.old result }
{
    let refusal = answered(
        call,
        case,
        note_starts,
        note_ends,
        from,
        to,
        numbers,
        starts,
        ends,
    );
    are_pairs(case, index, refusal, numbers, starts, ends)
}

// The passed numbers, starts and ends, beside the pairs.
fn listed_beside(
    call: PairsCall,
    case: &[u8],
    at: usize,
    note_starts: &[Offset],
    note_ends: &[Offset],
    from: &[u32],
    to: &[u32],
) -> bool
    requires { at < 90 }
    ensures { PairsReplayed call case.now (at + 5) note_starts.now
        note_ends.now from.now to.now
        (take 256 (field_of (at + 2) case.now)) (numbers_of (field_of (at + 3) case.now))
        (numbers_of (field_of (at + 4) case.now)) result }
{
    let mut refusals = [0; FEW];
    let mut starts = [0; FEW];
    let mut ends = [0; FEW];
    let r = bytes(case, at + 2, &mut refusals);
    let s = numbers(case, at + 3, &mut starts);
    let e = numbers(case, at + 4, &mut ends);
    listed(
        call,
        case,
        at + 5,
        note_starts,
        note_ends,
        from,
        to,
        &mut refusals[..r],
        &mut starts[..s],
        &mut ends[..e],
    )
}

// The call by its name or by its number. One that takes no columns leaves those of the note.
// An inner function: `at` is below 90, so that adding to it does not wrap.
pub fn on_pairs<C: Into<PairsCall>>(
    call: C,
    case: &[u8],
    at: usize,
    starts: &[Offset],
    ends: &[Offset],
) -> bool
    requires { at < 90 }
    ensures { (is : PairsCall) × (C.converts call is
        × PairsReplayed is case.now (at + 5) starts.now ends.now
        (numbers_of (field_of at case.now)) (numbers_of (field_of (at + 1) case.now))
        (take 256 (field_of (at + 2) case.now)) (numbers_of (field_of (at + 3) case.now))
        (numbers_of (field_of (at + 4) case.now)) result) }
{
    let mut from = [0; FEW];
    let mut to = [0; FEW];
    let f = numbers(case, at, &mut from);
    let t = numbers(case, at + 1, &mut to);
    listed_beside(call.into(), case, at, starts, ends, &from[..f], &to[..t])
}
