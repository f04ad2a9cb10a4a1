// What is said of the literals and fillers, by the columns that `redact_all` has written.
ghost use Rattle.std.specs.Prelude.{◌≡◌};
ghost use Rattle.redact_main.specs.Telling.{Counted, is_clean};

use crate::messages::{say_blanked, say_filler_found, say_not_found, say_still_there};
use redact_all::Report;

// Whether each literal was found, none can still be read, and no filler was in the note already.
pub fn is_clean(report: Report) -> bool
    ensures { result ≡ is_clean report }
{
    (report.not_found == 0) & (report.left == 0) & (report.fillers_found == 0)
}

// How often each literal was blanked.
fn tell_blanked(rt: &impl Eprint, words: &[u8], sizes: &[u32], blanked: &[u32])
    requires { Counted words.now sizes.now blanked.now }
{
    let mut at = 0;
    for k in 0..sizes.len() / 2 {
        let middle = at + sizes[2 * k] as usize;
        let end = middle + sizes[2 * k + 1] as usize;
        if blanked[k] == 0 {
            say_not_found(rt, k + 1, &words[at..middle]);
        } else {
            say_blanked(rt, k + 1, blanked[k]);
        }
        at = end;
    }
}

// Which literals can still be read.
fn tell_left(rt: &impl Eprint, left: &[u32]) {
    for (k, count) in left.iter().enumerate() {
        if *count != 0 {
            say_still_there(rt, k + 1, *count);
        }
    }
}

// Which fillers the note had already.
fn tell_fillers(rt: &impl Eprint, fillers: &[u32]) {
    for (k, count) in fillers.iter().enumerate() {
        if *count != 0 {
            say_filler_found(rt, k + 1, *count);
        }
    }
}

// All of that, in this order.
// An inner function: the pairs were judged, and there is a count for each.
pub fn tell_counts(
    rt: &impl Eprint,
    words: &[u8],
    sizes: &[u32],
    blanked: &[u32],
    left: &[u32],
    fillers: &[u32],
)
    requires { Counted words.now sizes.now blanked.now }
{
    tell_blanked(rt, words, sizes, blanked);
    tell_left(rt, left);
    tell_fillers(rt, fillers);
}
