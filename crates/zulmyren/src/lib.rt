// The calls as C has them, on plain numbers, by family: include/zulmyren.h says what each means, and zulmyren_c exports
// them.
#![tactic(auto)]

pub mod answers;
pub mod editing;
pub mod matches;
pub mod notes;
pub mod ranges;
pub mod redacting;
pub mod slices;
pub mod texts;
