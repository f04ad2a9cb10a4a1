// The alignments of a text as lines (RULES 14.1).
// Each function here is an inner one: columns and room were judged before.
#![tactic(auto)]

ghost use Rattle.std.specs.Prelude.{◌≡◌, ◌+◌, ◌*◌, ◌≤◌, ◌<◌, length, get_or, drop};
ghost use Rattle.buffers.specs.Splice.{overlay, Laid};
ghost use Rattle.note.specs.Notes.{limit};
ghost use Rattle.alignment_lines.specs.Lines.{line_of, lines_of, longest_line, run_of};

use buffers::Offset;
use numbers::decimals::write_field;

// Bytes that are enough for a line: four numbers of five digits, each with a byte after it.
pub const LINE: usize = 24;

// How many bytes from `at` on carry the alignment of the byte there.
fn run_at(starts: &[Offset], ends: &[Offset], at: usize) -> usize
    requires { (length starts.now ≡ length ends.now) × (at < length starts.now) }
    ensures { result ≡ run_of (get_or starts.now at 0) (get_or ends.now at 0)
        (drop at starts.now) (drop at ends.now) }
{
    let start = starts[at];
    let end = ends[at];
    for i in at..starts.len() {
        if starts[i] != start || ends[i] != end {
            return i - at;
        }
    }
    starts.len() - at
}

// The line of a run, in `out` from `at` on; where it ends.
fn write_line(
    first: usize,
    count: usize,
    start: Offset,
    end: Offset,
    out: &mut [u8],
    at: usize,
) -> usize
    requires { at + length (line_of first count start end) ≤ length out.old }
    ensures { Laid (line_of first count start end) out.old at result out.new }
{
    let second = write_field(first, b'\t', out, at);
    let third = write_field(count, b'\t', out, second);
    let fourth = write_field(start as usize, b'\t', out, third);
    write_field(end as usize, b'\n', out, fourth)
}

// The lines of all runs, in front of `out`; how many bytes they have.
pub fn write_lines(starts: &[Offset], ends: &[Offset], out: &mut [u8]) -> usize
    requires { (length starts.now ≡ length ends.now) × (length starts.now ≤ limit)
        × (longest_line * length starts.now ≤ length out.old) }
    ensures { (result ≡ length (lines_of starts.now ends.now))
        × (out.new ≡ overlay (lines_of starts.now ends.now) out.old) }
{
    let mut at = 0;
    let mut size = 0;
    while at < starts.len() {
        let count = run_at(starts, ends, at);
        size = write_line(at, count, starts[at], ends[at], out, size);
        at += count;
    }
    size
}
