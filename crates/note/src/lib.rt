// The note's numbers, and the refusals of every call on it (RULES 1 and 2).
#![tactic(auto)]

pub mod rewrap;
pub mod verdicts;

ghost use Rattle.std.specs.Prelude.{◌≡◌, ◌≤◌, length};
ghost use Rattle.note.specs.Notes.{before_end};

use buffers::Offset;

// A byte of the transcript (Rust: an offset in the referential `Original`).
#[derive(Clone, Copy)]
pub struct OriginalByte(pub u32);

// A byte of the cleaned text (Rust: an offset in the referential `Normalized`).
#[derive(Clone, Copy)]
pub struct NormalizedByte(pub u32);

// A character of a text, counted from 0 (Rust: `OffsetType::Char`).
#[derive(Clone, Copy)]
pub struct CharIndex(pub u32);

// Why a call is refused, with its number and the word that the programs print (RULES 2). The variants stand in the order
// in which they are judged, and so they compare: the first judged is the least.
#[derive(Clone, Copy, Debug, PartialEq, Eq, PartialOrd, Ord)]
pub enum Refusal {
    TooLong, // 2 overlong
    LengthMismatch, // 3 uneven
    IllFormed, // 1 torn
    Misaligned, // 4 stray
    BadScript, // 6 bad script
    BadMatches, // 8 broken list
    CountMismatch, // 11 miscounted
    NotBoundary, // 5 off place
    Missing, // 10 nothing there
    Exhausted, // 7 nothing left
    NoRoom, // 9 no room
}

// A note as a call is given it (Rust: `NormalizedString`): the transcript, the cleaned text, a start and an end for each
// byte of the cleaned text, and how far the transcript is shifted. Any such values may be passed: `check_note` judges.
#[derive(Clone, Copy)]
pub struct NormalizedString<'a> {
    pub original: &'a [u8],
    pub normalized: &'a [u8],
    pub starts: &'a [Offset],
    pub ends: &'a [Offset],
    pub original_shift: u32,
}

// The most bytes that a text has, and that a shift and a transcript have together.
pub const LIMIT: usize = 65535;

// What a new character carries of a column, at a place that ends at `end`. An inner function: `end` is no further than
// the column.
pub fn before_end(column: &[Offset], end: usize) -> Offset
    requires { end ≤ length column.now }
    ensures { result ≡ before_end column.now end }
{
    if end == 0 {
        return 0;
    }
    column[end - 1]
}
