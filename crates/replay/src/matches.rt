// The calls on matches that publish nothing: finding, and whether two notes are published alike.
use buffers::Offset;
use note::NormalizedString;
use replayed_pieces::told::is_list;
use standard_input::large_buffer;
use stored_answers::columns::{bytes, offsets, zeros};
use stored_answers::fields::{field, is_number, value};
use zulmyren::matches::{zulmyren_find_matches, zulmyren_published_alike};

fn found(case: &[u8], out: &mut [u8]) -> bool {
    let answer = zulmyren_find_matches(field(case, 0), field(case, 1), out);
    is_list(case, 3, answer, out)
}

// A text, a literal, room for the list; the refusal, its size, the list.
pub fn find_matches(case: &[u8]) -> bool {
    let mut out = large_buffer();
    let o = bytes(case, 2, &mut out);
    found(case, &mut out[..o])
}

fn compared(
    case: &[u8],
    starts: &[Offset],
    ends: &[Offset],
    other_starts: &[Offset],
    other_ends: &[Offset],
) -> bool {
    let answer = zulmyren_published_alike(
        &NormalizedString {
            original: field(case, 0),
            normalized: field(case, 1),
            starts,
            ends,
            original_shift: value(case, 4),
        },
        &NormalizedString {
            original: field(case, 5),
            normalized: field(case, 6),
            starts: other_starts,
            ends: other_ends,
            original_shift: value(case, 9),
        },
        field(case, 10),
        field(case, 11),
    );
    is_number(case, 12, answer.refusal) & is_number(case, 13, answer.alike as u32)
}

// A note, another note, a list, a content; the refusal, 1 where both are published alike.
pub fn published_alike(case: &[u8], starts: &[Offset], ends: &[Offset]) -> bool {
    let mut other_starts = zeros();
    let mut other_ends = zeros();
    let s = offsets(case, 7, &mut other_starts);
    let e = offsets(case, 8, &mut other_ends);
    compared(case, starts, ends, &other_starts[..s], &other_ends[..e])
}
