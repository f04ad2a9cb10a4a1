// The behaviours of splitting (RULES 11; Rust: `SplitDelimiterBehavior`): which stretches of the cleaned text a match
// list cuts out, told place by place and measured.
#![tactic(auto)]

ghost use Rattle.std.specs.Prelude.{◌≡◌};
ghost use Rattle.note.specs.Notes.{limit};
ghost use Rattle.behaviors.specs.Splits.{is_dropped};
ghost use Rattle.behaviors.specs.Joining.{joins, drops_matches};
ghost use Rattle.behaviors.specs.Runs.{Addable, piece_if, joined_by, join_table, Listed, list_pieces};
ghost use Rattle.behaviors.specs.Runs.{onward_if, sizes_with, is_kept_run};

use pattern::{Place, entry_at};

// What becomes of the delimiters, the matched places.
#[derive(Clone, Copy)]
pub enum SplitDelimiterBehavior {
    Removed,
    Isolated,
    MergedWithPrevious,
    MergedWithNext,
    Contiguous,
}

// Whether pieces without a byte stay (Rust: `NormalizedString::split`) or go (`PreTokenizedString::split`).
#[derive(Clone, Copy)]
pub enum EmptyPieces {
    Kept,
    Dropped,
}

// How many pieces there are, and how many bytes they have together.
#[derive(Clone, Copy)]
pub struct Sizes {
    pub pieces: usize,
    pub bytes: usize,
}

// Whether a place belongs to one piece with the place before it.
fn joins(behavior: SplitDelimiterBehavior, before: bool, now: bool) -> bool
    ensures { result ≡ joins behavior before now }
{
    match behavior {
        SplitDelimiterBehavior::Removed => false,
        SplitDelimiterBehavior::Isolated => false,
        SplitDelimiterBehavior::MergedWithPrevious => now & !before,
        SplitDelimiterBehavior::MergedWithNext => before & !now,
        SplitDelimiterBehavior::Contiguous => now == before,
    }
}

// What `joins` says of the four pairs of flags: asked once, so that a place of a list takes no case on the behaviour.
pub fn join_table(behavior: SplitDelimiterBehavior) -> [bool; 4]
    ensures { result ≡ join_table behavior }
{
    [
        joins(behavior, false, false),
        joins(behavior, false, true),
        joins(behavior, true, false),
        joins(behavior, true, true),
    ]
}

// What the table says of the flags of two places.
pub fn joined(table: &[bool; 4], before: bool, matched: bool) -> bool
    ensures { result ≡ joined_by table.now before matched }
{
    table[before as usize * 2 + matched as usize]
}

// Whether matched places are lost.
fn drops_matches(behavior: SplitDelimiterBehavior) -> bool
    ensures { result ≡ drops_matches behavior }
{
    match behavior {
        SplitDelimiterBehavior::Removed => true,
        SplitDelimiterBehavior::Isolated => false,
        SplitDelimiterBehavior::MergedWithPrevious => false,
        SplitDelimiterBehavior::MergedWithNext => false,
        SplitDelimiterBehavior::Contiguous => false,
    }
}

// Whether a piece is dropped for having no byte.
pub fn is_dropped(empty: EmptyPieces, run: Place) -> bool
    ensures { result ≡ is_dropped empty run }
{
    match empty {
        EmptyPieces::Kept => false,
        EmptyPieces::Dropped => {
            let start = run.start;
            let end = run.end;
            start.0 == end.0
        }
    }
}

// The run after the next place: drawn out to it where that belongs to it, else begun with it.
pub fn extend_run(joined: bool, run: Place, place: Place) -> Place
    ensures { result ≡ onward_if joined run place }
{
    if joined {
        let start = run.start;
        let end = place.end;
        return Place {
            start,
            end,
            matched: place.matched,
        };
    }
    place
}

// Whether a run that is over gives a piece.
pub fn is_kept_run(behavior: SplitDelimiterBehavior, empty: EmptyPieces, run: Place) -> bool
    ensures { result ≡ is_kept_run behavior empty run }
{
    !(drops_matches(behavior) & run.matched) & !is_dropped(empty, run)
}

// The sizes with those of a piece, where there is one.
fn counted(sizes: Sizes, met: bool, run: Place) -> Sizes
    requires { Addable sizes run }
    ensures { result ≡ sizes_with sizes (piece_if met run) }
{
    if met {
        let start = run.start;
        let end = run.end;
        return Sizes {
            pieces: sizes.pieces + 1,
            bytes: sizes.bytes + (end.0 - start.0) as usize,
        };
    }
    sizes
}

// How many pieces a list gives, and how many bytes they have. An inner function: the list was judged before.
pub fn measure(list: &[u8], behavior: SplitDelimiterBehavior, empty: EmptyPieces) -> Sizes
    requires { Listed limit list.now }
    ensures { result ≡ sizes_with (record { pieces = 0; bytes = 0 })
        (list_pieces behavior empty list.now) }
{
    let none = Sizes {
        pieces: 0,
        bytes: 0,
    };
    let Some((first, second)) = entry_at(list, 0) else {
        return none;
    };
    let mut sizes = none;
    let table = join_table(behavior);
    let mut run = first;
    let mut i = second;
    while i < list.len() {
        let Some((place, next)) = entry_at(list, i) else {
            break;
        };
        let joins = joined(&table, run.matched, place.matched);
        sizes = counted(sizes, !joins & is_kept_run(behavior, empty, run), run);
        run = extend_run(joins, run, place);
        i = next;
    }
    counted(sizes, is_kept_run(behavior, empty, run), run)
}
