// The library's calls, for C: include/zulmyren.h says what each means. Each is the function of zulmyren that has its
// name, with the same clauses of the note that its five parameters are (`lent`). A note, three buffers and flags come
// one by one, since C passes them so. Nothing else is exported.
#![tactic(auto)]

pub mod editing;
pub mod matches;
pub mod notes;
pub mod ranges;
pub mod redacting;
pub mod slices;
pub mod texts;
