// The calls on a text alone.
use replayed_pieces::told::is_range;
use stored_answers::fields::{field, is_number, value};
use zulmyren::texts::{zulmyren_char_offsets, zulmyren_letter_count, zulmyren_well_formed};

// A text; 1 where it is well-formed, 0 where it is not.
pub fn well_formed(case: &[u8]) -> bool {
    is_number(case, 1, zulmyren_well_formed(field(case, 0)) as u32)
}

// A text, start, end; the refusal, the count.
pub fn letter_count(case: &[u8]) -> bool {
    let answer = zulmyren_letter_count(field(case, 0), value(case, 1), value(case, 2));
    is_number(case, 3, answer.refusal) & is_number(case, 4, answer.count)
}

// A text, start, end; the refusal, the two indices.
pub fn char_offsets(case: &[u8]) -> bool {
    let answer = zulmyren_char_offsets(field(case, 0), value(case, 1), value(case, 2));
    is_range(case, 3, answer)
}
