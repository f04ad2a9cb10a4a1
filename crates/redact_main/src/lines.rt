// The alignments of a published text, as lines to standard output.
ghost use Rattle.std.specs.Prelude.{◌≡◌, ◌*◌, ◌≤◌, length};
ghost use Rattle.note.specs.Notes.{limit};
ghost use Rattle.alignment_lines.specs.Lines.{longest_line};

use alignment_lines::{LINE, write_lines};
use buffers::Offset;
use note::LIMIT;
use std::io;

// A line for each byte of the longest text.
const LINES: usize = LINE * LIMIT;

// Room for so many lines.
fn lines_buffer() -> [u8; LINES]
    ensures { longest_line * limit ≡ length result }
{
    [0; LINES]
}

// All of them are written, or it is said why not.
// An inner function: there are as many starts as ends, and no more than the limit.
pub fn write_alignments(rt: &impl Print, starts: &[Offset], ends: &[Offset]) -> io::Result<()>
    requires { (length starts.now ≡ length ends.now) × (length starts.now ≤ limit) }
{
    let mut lines = lines_buffer();
    let size = write_lines(starts, ends, &mut lines);
    rt.write_all(&lines[..size])
}
