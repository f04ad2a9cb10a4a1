// The calls on a note and a range. A range: 1 where it is of the transcript, 0 of the cleaned text; start, end.
use buffers::Offset;
use convert::range_of;
use get_range::part_of;
use note::NormalizedString;
use replayed_pieces::told::is_range;
use stored_answers::calls::RangeCall;
use stored_answers::fields::{field, is_number, is_text, value};
use zulmyren::ranges::{
    side_of, zulmyren_convert_offsets, zulmyren_get_range, zulmyren_get_range_original,
    zulmyren_part_verdict,
};

// `convert_offsets`, `get_range` or `get_range_original`: a note, a range; the refusal, start, end.
pub fn on_range(call: RangeCall, case: &[u8], starts: &[Offset], ends: &[Offset]) -> bool {
    let original = field(case, 0);
    let normalized = field(case, 1);
    let shift = value(case, 4);
    let of_original = value(case, 5) == 1;
    let start = value(case, 6);
    let end = value(case, 7);
    let answer = match call {
        RangeCall::ConvertOffsets => zulmyren_convert_offsets(
            &NormalizedString {
                original,
                normalized,
                starts,
                ends,
                original_shift: shift,
            },
            of_original,
            start,
            end,
        ),
        RangeCall::GetRange => zulmyren_get_range(
            &NormalizedString {
                original,
                normalized,
                starts,
                ends,
                original_shift: shift,
            },
            of_original,
            start,
            end,
        ),
        RangeCall::GetRangeOriginal => zulmyren_get_range_original(
            &NormalizedString {
                original,
                normalized,
                starts,
                ends,
                original_shift: shift,
            },
            of_original,
            start,
            end,
        ),
    };
    is_range(case, 8, answer)
}

// Two texts, a range; the refusal, the part that the reader hands back.
pub fn part(case: &[u8]) -> bool {
    let original = field(case, 0);
    let normalized = field(case, 1);
    let of_original = value(case, 2) == 1;
    let start = value(case, 3);
    let end = value(case, 4);
    let refusal = zulmyren_part_verdict(original, normalized, of_original, start, end);
    let range = range_of(side_of(of_original), start, end);
    is_number(case, 5, refusal) & is_text(case, 6, part_of(original, normalized, range))
}
