// What the program says on standard error, line by line. The first words of the last line say what became of the note, and
// the script `redact` reads its status there: `written:`, `nothing written:`, `refused`, `redact:` or `usage:`. No literal
// and no filler is ever spelt. The literals are numbered from 1 on, as they were given.
use crate::arguments::Output;
use crate::gathering::NoWords;
use invisible::{code_at, first_invisible};
use note::Refusal;
use std::{fmt, io};

// What of the system failed, and why.
pub fn fail(rt: &impl Eprint, what: &str, error: io::Error) {
    let _ = eprintln!(rt; "redact: {what}: {error}");
}

// How often.
#[derive(Clone, Copy)]
struct Times(u32);

impl fmt::Display for Times {
    fn fmt<W: fmt::Write>(&self, f: &mut fmt::Formatter<W>) -> fmt::Result {
        match self.0 {
            1 => write!(f, "1 time"),
            count => write!(f, "{count} times"),
        }
    }
}

pub fn usage(rt: &impl Eprint) {
    let _ = eprintln!(rt;
        "usage: redact_main OUTPUT MODE pairs LITERAL FILLER [LITERAL FILLER]... < NOTE"
    );
    let _ = eprintln!(rt; "usage: redact_main OUTPUT MODE names FILE < NOTE");
}

pub fn say_blanked(rt: &impl Eprint, number: usize, count: u32) {
    let times = Times(count);
    let _ = eprintln!(rt; "blanked {times}: literal {number}");
}

// An invisible character in a literal that was not found is named, by its code point of four digits at least.
pub fn say_not_found(rt: &impl Eprint, number: usize, literal: &[u8]) {
    if literal.is_empty() {
        let _ = eprintln!(rt; "not found: literal {number}, which is empty");
        return;
    }
    let first = first_invisible(literal);
    if first < literal.len() {
        let code = code_at(literal, first);
        let _ = eprintln!(rt;
            "not found: literal {number}, which has the invisible character U+{code:04X} at byte {first}"
        );
        return;
    }
    let _ = eprintln!(rt; "not found: literal {number}");
}

pub fn say_still_there(rt: &impl Eprint, number: usize, count: u32) {
    let times = Times(count);
    let _ = eprintln!(rt; "still there: literal {number}, {times}");
}

pub fn say_filler_found(rt: &impl Eprint, number: usize, count: u32) {
    let times = Times(count);
    let _ = eprintln!(rt; "filler in the note: literal {number}, {times}");
}

// What was written: a text of so many bytes, or its alignments.
pub fn say_written(rt: &impl Eprint, len: usize, output: Output) {
    let _ = match output {
        Output::Text => eprintln!(rt; "written: {len} bytes"),
        Output::Alignments => eprintln!(rt; "written: the alignments of {len} bytes"),
    };
}

pub fn say_kept_back(rt: &impl Eprint) {
    let _ = eprintln!(rt; "nothing written: see above; --anyway writes all the same");
}

pub fn say_let_pass(rt: &impl Eprint) {
    let _ = eprintln!(rt; "let pass: see above");
}

// Why there are no words, and what to do.
pub fn refuse_words(rt: &impl Eprint, reason: NoWords) {
    let _ = eprintln!(rt; "{reason}");
}

// Why the note is not taken, and what to do: it is `IllFormed` or `TooLong`.
pub fn refuse_note(rt: &impl Eprint, k: Refusal) {
    let _ = match k {
        Refusal::IllFormed => {
            eprintln!(rt; "refused 1 torn: the note is not UTF-8; save it as UTF-8")
        }
        _ => eprintln!(rt;
            "refused 2 overlong: the note has more than 65,535 bytes; split it between two words that belong to no literal, since a literal that is cut in two is not found"
        ),
    };
}

// Why the literals cannot be blanked, and what to do: there are too many, or there is `NoRoom`.
pub fn refuse_pairs(rt: &impl Eprint, k: Refusal) {
    let _ = match k {
        Refusal::TooLong => {
            eprintln!(rt;
                "refused 2 overlong: there are more than 65,535 literals; blank some of them first"
            )
        }
        _ => eprintln!(rt;
            "refused 9 no room: with the literals blanked the text has more than 65,535 bytes; take shorter fillers, or split the note between two words that belong to no literal"
        ),
    };
}
