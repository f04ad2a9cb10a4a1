// What exported calls answer: plain numbers, and the refusal's number beside them, 0 where the call accepts. The structs
// keep that form for the C interface.
ghost use Rattle.std.specs.Prelude.{◌≡◌};
ghost use Rattle.zulmyren.specs.Calls.{all_blanked_of, blanked_of, chars_of, cleared_of, compared_of, cut_numbers};
ghost use Rattle.zulmyren.specs.Calls.{letters_of, offsets_of, slice_numbers, written_of};

use convert::{Range, end_of, start_of};
use note::{CharIndex, Refusal};
use redact_all::Report;
use slice::NoteSlice;

// A count, 0 where the call is refused.
#[repr(C)]
#[derive(Clone, Copy)]
pub struct Count {
    pub refusal: u32,
    pub count: u32,
}

// A range or a pair, 0 and 0 where the call is refused.
#[repr(C)]
#[derive(Clone, Copy)]
pub struct Offsets {
    pub refusal: u32,
    pub start: u32,
    pub end: u32,
}

// How many elements the result has: bytes of a text or list, or pieces; 0 where the call is refused.
#[repr(C)]
#[derive(Clone, Copy)]
pub struct Written {
    pub refusal: u32,
    pub len: usize,
}

// Whether two notes are published alike, false where the call is refused.
#[repr(C)]
#[derive(Clone, Copy)]
pub struct Comparison {
    pub refusal: u32,
    pub alike: bool,
}

// The ranges of a slice in both texts, and its shift; 0 each where the call is refused.
#[repr(C)]
#[derive(Clone, Copy)]
pub struct Slice {
    pub refusal: u32,
    pub original_start: u32,
    pub original_end: u32,
    pub normalized_start: u32,
    pub normalized_end: u32,
    pub original_shift: u32,
}

// How many pieces there are, and how many alignments they have together; 0 each where the call is refused.
#[repr(C)]
#[derive(Clone, Copy)]
pub struct Cut {
    pub refusal: u32,
    pub len: usize,
    pub alignments_len: usize,
}

// How many bytes a text had and has, 0 and 0 where the call is refused.
#[repr(C)]
#[derive(Clone, Copy)]
pub struct Lengths {
    pub refusal: u32,
    pub before_len: usize,
    pub len: usize,
}

// How many bytes are published, and how many matches gave way; 0 each where the call is refused.
#[repr(C)]
#[derive(Clone, Copy)]
pub struct Blanked {
    pub refusal: u32,
    pub len: usize,
    pub matches: usize,
}

// How many bytes are published; how many literals were not found, how many can still be read in what is published, and
// how many fillers the note had already; 0 each where the call is refused.
#[repr(C)]
#[derive(Clone, Copy)]
pub struct BlankedAll {
    pub refusal: u32,
    pub len: usize,
    pub not_found: usize,
    pub left: usize,
    pub fillers_found: usize,
}

impl From<Result<usize, Refusal>> for Written {
    ghost from_gives = { λ answer it. it ≡ written_of answer };

    fn from(answer: Result<usize, Refusal>) -> Written {
        match answer {
            Ok(len) => Written { refusal: 0, len },
            Err(k) => Written {
                refusal: u32::from(k),
                len: 0,
            },
        }
    }
}

impl From<Result<(usize, usize), Refusal>> for Lengths {
    ghost from_gives = { λ answer it. it ≡ cleared_of answer };

    fn from(answer: Result<(usize, usize), Refusal>) -> Lengths {
        match answer {
            Ok((before_len, len)) => Lengths {
                refusal: 0,
                before_len,
                len,
            },
            Err(k) => Lengths {
                refusal: u32::from(k),
                before_len: 0,
                len: 0,
            },
        }
    }
}

impl From<Result<u32, Refusal>> for Count {
    ghost from_gives = { λ answer it. it ≡ letters_of answer };

    fn from(answer: Result<u32, Refusal>) -> Count {
        match answer {
            Ok(count) => Count { refusal: 0, count },
            Err(k) => Count {
                refusal: u32::from(k),
                count: 0,
            },
        }
    }
}

impl From<Result<(usize, usize), Refusal>> for Blanked {
    ghost from_gives = { λ answer it. it ≡ blanked_of answer };

    fn from(answer: Result<(usize, usize), Refusal>) -> Blanked {
        match answer {
            Ok((len, matches)) => Blanked {
                refusal: 0,
                len,
                matches,
            },
            Err(k) => Blanked {
                refusal: u32::from(k),
                len: 0,
                matches: 0,
            },
        }
    }
}

impl From<Result<Report, Refusal>> for BlankedAll {
    ghost from_gives = { λ answer it. it ≡ all_blanked_of answer };

    fn from(answer: Result<Report, Refusal>) -> BlankedAll {
        match answer {
            Ok(report) => BlankedAll {
                refusal: 0,
                len: report.len,
                not_found: report.not_found,
                left: report.left,
                fillers_found: report.fillers_found,
            },
            Err(k) => BlankedAll {
                refusal: u32::from(k),
                len: 0,
                not_found: 0,
                left: 0,
                fillers_found: 0,
            },
        }
    }
}

impl From<Result<(CharIndex, CharIndex), Refusal>> for Offsets {
    ghost from_gives = { λ answer it. it ≡ chars_of answer };

    fn from(answer: Result<(CharIndex, CharIndex), Refusal>) -> Offsets {
        match answer {
            Ok((first, last)) => Offsets {
                refusal: 0,
                start: first.0,
                end: last.0,
            },
            Err(k) => Offsets {
                refusal: u32::from(k),
                start: 0,
                end: 0,
            },
        }
    }
}

impl From<Result<Range, Refusal>> for Offsets {
    ghost from_gives = { λ answer it. it ≡ offsets_of answer };

    fn from(answer: Result<Range, Refusal>) -> Offsets {
        match answer {
            Ok(range) => Offsets {
                refusal: 0,
                start: start_of(range),
                end: end_of(range),
            },
            Err(k) => Offsets {
                refusal: u32::from(k),
                start: 0,
                end: 0,
            },
        }
    }
}

impl From<Result<bool, Refusal>> for Comparison {
    ghost from_gives = { λ answer it. it ≡ compared_of answer };

    fn from(answer: Result<bool, Refusal>) -> Comparison {
        match answer {
            Ok(alike) => Comparison { refusal: 0, alike },
            Err(k) => Comparison {
                refusal: u32::from(k),
                alike: false,
            },
        }
    }
}

impl From<Result<NoteSlice, Refusal>> for Slice {
    ghost from_gives = { λ answer it. it ≡ slice_numbers answer };

    fn from(answer: Result<NoteSlice, Refusal>) -> Slice {
        match answer {
            Ok(s) => Slice {
                refusal: 0,
                original_start: s.original_start.0,
                original_end: s.original_end.0,
                normalized_start: s.normalized_start.0,
                normalized_end: s.normalized_end.0,
                original_shift: s.original_shift,
            },
            Err(k) => Slice {
                refusal: u32::from(k),
                original_start: 0,
                original_end: 0,
                normalized_start: 0,
                normalized_end: 0,
                original_shift: 0,
            },
        }
    }
}

impl From<Result<(usize, usize), Refusal>> for Cut {
    ghost from_gives = { λ answer it. it ≡ cut_numbers answer };

    fn from(answer: Result<(usize, usize), Refusal>) -> Cut {
        match answer {
            Ok((len, alignments_len)) => Cut {
                refusal: 0,
                len,
                alignments_len,
            },
            Err(k) => Cut {
                refusal: u32::from(k),
                len: 0,
                alignments_len: 0,
            },
        }
    }
}
