// The head of a note (RULES 8): how many alignments are before the first one that has width.
// Each function here is an inner one: the note is accepted, so that there is an end for each start.
ghost use Rattle.std.specs.Prelude.{◌≡◌, length};
ghost use Rattle.edits.specs.Laying.{HeadPassed};
ghost use Rattle.edits.specs.Plain.{widthless};

use buffers::Offset;
use buffers::equality::same;

// As many of them as blocks of 64 tell.
fn widthless_blocks(starts: &[Offset], ends: &[Offset]) -> usize
    requires { length starts.now ≡ length ends.now }
    ensures { HeadPassed starts.now ends.now result }
{
    for block in 0..starts.len() / 64 {
        let i = block * 64;
        if !same(&starts[i..i + 64], &ends[i..i + 64]) {
            return i;
        }
    }
    starts.len() / 64 * 64
}

pub fn widthless(starts: &[Offset], ends: &[Offset]) -> usize
    requires { length starts.now ≡ length ends.now }
    ensures { result ≡ widthless starts.now ends.now }
{
    for i in widthless_blocks(starts, ends)..starts.len() {
        if starts[i] != ends[i] {
            return i;
        }
    }
    starts.len()
}
