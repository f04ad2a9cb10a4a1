// The lines that `pieces` prints (RULES 14.5). Each function here is an inner one: spans and room were judged before.
ghost use Rattle.std.specs.Prelude.{◌++◌, ◌+◌, ◌≤◌, length};
ghost use Rattle.buffers.specs.Splice.{Laid};
ghost use Rattle.numbers.specs.Decimal.{field};
ghost use Rattle.piece_lines.specs.Spans.{line, span_lines, LineSpans};

use buffers::{Offset, copy, fill};
use numbers::decimals::write_field;

// A word and a number, in front of `out`. Here and below: where the line ends.
pub fn write_headline(word: &[u8], number: usize, out: &mut [u8]) -> usize
    requires { length (word.now ++ field number 0x0A) ≤ length out.old }
    ensures { Laid (word.now ++ field number 0x0A) out.old 0 result out.new }
{
    copy(word, out, 0);
    write_field(number, b'\n', out, word.len())
}

// The line of a piece, in `out` from `at` on.
fn write_line(start: usize, end: usize, bytes: &[u8], out: &mut [u8], at: usize) -> usize
    requires { at + length (line start end bytes.now) ≤ length out.old }
    ensures { Laid (line start end bytes.now) out.old at result out.new }
{
    let second = write_field(start, b' ', out, at);
    let third = write_field(end, b' ', out, second);
    copy(bytes, out, third);
    let last = third + bytes.len();
    fill(b'\n', 1, out, last);
    last + 1
}

// The lines of all spans.
pub fn write_lines(
    text: &[u8],
    starts: &[Offset],
    ends: &[Offset],
    out: &mut [u8],
    at: usize,
) -> usize
    requires { LineSpans text.now starts.now ends.now
        × (at + length (span_lines text.now starts.now ends.now) ≤ length out.old) }
    ensures { Laid (span_lines text.now starts.now ends.now)
        out.old at result out.new }
{
    let mut reach = at;
    // By index and not by `zip`: what is required of a span is said of the index.
    for i in 0..starts.len() {
        let start = starts[i] as usize;
        let end = ends[i] as usize;
        reach = write_line(start, end, &text[start..end], out, reach);
    }
    reach
}
