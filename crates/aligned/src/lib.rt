// Whether a note's alignments are sound, for a note whose texts and numbers of alignments were judged before.
#![tactic(auto)]

pub mod starting;

ghost use Rattle.std.specs.Prelude.{◌≡◌, length};
ghost use Rattle.note.specs.Notes.{aligned, lent, limit};
ghost use Rattle.aligned.specs.Judged.{Judged};
ghost use Rattle.aligned.specs.MisalignedBits.{misaligned_bits};
ghost use Rattle.boundaries.specs.Monotone.{monotone};

use boundaries::uncut_all;
use buffers::Offset;
use buffers::lanes::select;
use starting::is_starting;
use utf8::continues;

// 0 where the alignment (s1, e1) at the byte `b` can follow (s0, e0). A difference that is cut off at 0 costs one
// instruction for eight alignments where a comparison costs several; and it has no branch, so that a loop over it is
// vectorised.
fn misaligned_bits(b: u8, s0: Offset, e0: Offset, s1: Offset, e1: Offset) -> Offset
    ensures { result ≡ misaligned_bits b s0 e0 s1 e1 }
{
    let unordered = s1.saturating_sub(e1) | s0.saturating_sub(s1) | e0.saturating_sub(e1);
    let ahead = s1.saturating_sub(s0) | e1.saturating_sub(e0);
    unordered | select(continues(b), ahead, 0)
}

// Whether each alignment can follow the one before it. The ends never go back, so that the last one speaks for all.
fn monotone(text: &[u8], starts: &[Offset], ends: &[Offset], size: Offset) -> bool
    requires { (length starts.now ≡ length text.now) × (length ends.now ≡ length text.now) }
    ensures { result ≡ monotone text.now starts.now ends.now size
        (length text.now) }
{
    if text.len() == 0 {
        return true;
    }
    let mut found = starts[0].saturating_sub(ends[0]);
    for i in 1..text.len() {
        found = found | misaligned_bits(text[i], starts[i - 1], ends[i - 1], starts[i], ends[i]);
    }
    (found | ends[text.len() - 1].saturating_sub(size)) == 0
}

// Whether the alignments are sound. An inner call: limits, numbers of alignments and texts were judged before.
pub fn aligned(
    original: &[u8],
    normalized: &[u8],
    starts: &[Offset],
    ends: &[Offset],
    plain: bool,
    same: bool,
) -> bool
    requires { Judged limit original.now normalized.now starts.now ends.now plain same }
    ensures { result ≡ aligned
        (lent original.now normalized.now starts.now ends.now 0) }
{
    if same && is_starting(normalized, starts, ends, plain) {
        return true;
    }
    if !monotone(normalized, starts, ends, original.len() as Offset) {
        return false;
    }
    if plain {
        return true;
    }
    uncut_all(original, normalized, starts, ends)
}
