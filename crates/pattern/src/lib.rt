// Match lists (RULES 9): the one reader of a place, the one writer, and the judge of a list against a text.
// No other crate knows how many bytes a place has.
#![tactic(auto)]

pub mod blocks;
pub mod writing;

ghost use Rattle.std.specs.Prelude.{◌≡◌, true, ◌∷◌, ◌+◌, ◌≤◌, ◌<◌, length, drop};
ghost use Rattle.pattern.specs.Entries.{entry_at, most_places, places_of, position_at, whole_list};
ghost use Rattle.pattern.specs.Places.{covers, fits_at};

use blocks::judge_blocks;
use note::NormalizedByte;
use numbers::little_endian::get_u16_le;
use utf8::is_char_boundary;

// A place of the cleaned text, and whether the pattern matched there (Rust: `(Offsets, bool)`). The flag is a fact of
// the place, and says of no field that it is missing.
#[derive(Clone, Copy)]
pub struct Place {
    pub start: NormalizedByte,
    pub end: NormalizedByte,
    pub matched: bool,
}

// The most bytes that a place has in a list.
pub const MAX_PLACE_LEN: usize = 5;

// The position whose two bytes stand at `i`.
fn position_at(list: &[u8], i: usize) -> NormalizedByte
    requires { i + 2 ≤ length list.now }
    ensures { result ≡ position_at list.now i }
{
    NormalizedByte(get_u16_le(list, i) as u32)
}

// What is at byte `i` of the list.
pub fn entry_at(list: &[u8], i: usize) -> Option<(Place, usize)>
    ensures { result ≡ entry_at list.now i }
{
    if list.len() < 5 {
        return None;
    }
    if list.len() - 5 < i {
        return None;
    }
    let command = list[i];
    if command < 11 {
        return None;
    }
    if 12 < command {
        return None;
    }
    let start = position_at(list, i + 1);
    let end = position_at(list, i + 3);
    let matched = command == 12;
    Some((
        Place {
            start,
            end,
            matched,
        },
        i + 5,
    ))
}

// As many places as a list can have at most, and has where no entry is broken.
pub fn most_places(list: &[u8]) -> usize
    ensures { result ≡ most_places list.now }
{
    list.len() / 5
}

// The place `k` of a list. An inner function: the list was judged before.
pub fn place_at(list: &[u8], k: usize) -> Place
    requires { (whole_list list.now ≡ true) × (k < length (places_of list.now)) }
    ensures { drop k (places_of list.now) ≡ result ∷ drop (k + 1) (places_of list.now) }
{
    let i = 5 * k;
    let start = position_at(list, i + 1);
    let end = position_at(list, i + 3);
    let matched = list[i] == 12;
    Place {
        start,
        end,
        matched,
    }
}

// Whether a place can follow one that ended at `at`.
fn fits_at(text: &[u8], at: usize, place: Place) -> bool
    ensures { result ≡ fits_at text.now at place }
{
    let start = place.start;
    let end = place.end;
    if start.0 as usize != at {
        return false;
    }
    if end.0 < start.0 {
        return false;
    }
    is_char_boundary(text, end.0 as usize)
}

// Whether the list covers the text.
pub fn covers(text: &[u8], list: &[u8]) -> bool
    ensures { result ≡ covers text.now list.now }
{
    let judged = judge_blocks(text, list);
    let mut at = judged.at;
    let mut i = judged.next;
    while i < list.len() {
        let Some((place, next)) = entry_at(list, i) else {
            return false;
        };
        if !fits_at(text, at, place) {
            return false;
        }
        let end = place.end;
        at = end.0 as usize;
        i = next;
    }
    at == text.len()
}
