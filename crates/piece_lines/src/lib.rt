// The program `pieces` (RULES 14.4 to 14.6) without its reading and writing: what it prints, from what is kept of the
// input. Inner functions of the programs: the buffer passed to them has room for any answer, as `out_buffer` has.
#![tactic(auto)]

pub mod input;
pub mod lines;

ghost use Rattle.std.specs.Prelude.{◌≡◌, ◌+◌, ◌*◌, ◌≤◌, length};
ghost use Rattle.buffers.specs.Splice.{Laid};
ghost use Rattle.note.specs.Starting.{starting};
ghost use Rattle.pattern.specs.Encoding.{room_for};
ghost use Rattle.behaviors.specs.declared.EmptyPieces.TheVariants.{Kept};
ghost use Rattle.behaviors.specs.Runs.{list_pieces};
ghost use Rattle.piece_lines.specs.Input.{longest};
ghost use Rattle.piece_lines.specs.Printing.{behavior_of_digit, most, pieces_text, printed, refusal, told};
ghost use Rattle.piece_lines.specs.Scanning.{HeadPrinted, Keeps};
ghost use Rattle.piece_lines.specs.Spans.{Cuttable, spans_text, LineSpans};

use behaviors::{EmptyPieces, SplitDelimiterBehavior};
use buffers::Offset;
use find::find_matches;
use input::{LONGEST, Seen, scan};
use lines::{write_headline, write_lines};
use note::Refusal;
use pattern::MAX_PLACE_LEN;
use spans::write_spans;

// The most bytes that an input has whose lines are not too long.
pub const KEPT: usize = 2 * LONGEST + 4;

// The most pieces of a note: a place for each match, one before each, and one after the last.
const SPANS: usize = 2 * LONGEST + 1;

// The most bytes that are printed.
const PRINTED: usize = 13 + 13 * SPANS + LONGEST;

// The four buffers are of four lengths or types, and each contract names its own: no generic function is plainer.
// Room for any answer.
pub fn out_buffer() -> [u8; PRINTED]
    ensures { most ≡ length result }
{
    [0; PRINTED]
}

// Room for the places of a note.
fn list_buffer() -> [u8; MAX_PLACE_LEN * SPANS]
    ensures { room_for (2 * longest + 1) ≡ length result }
{
    [0; MAX_PLACE_LEN * SPANS]
}

// Room for one end of each piece.
fn column_buffer() -> [Offset; SPANS]
    ensures { 2 * longest + 1 ≡ length result }
{
    [0; SPANS]
}

// Room for both ends of each piece.
fn span_buffer() -> [u32; SPANS]
    ensures { 2 * longest + 1 ≡ length result }
{
    [0; SPANS]
}

// The behaviour that a digit chooses.
fn behavior_of(digit: u8) -> SplitDelimiterBehavior
    ensures { result ≡ behavior_of_digit digit }
{
    match digit {
        b'1' => SplitDelimiterBehavior::Removed,
        b'2' => SplitDelimiterBehavior::Isolated,
        b'3' => SplitDelimiterBehavior::MergedWithPrevious,
        b'4' => SplitDelimiterBehavior::MergedWithNext,
        _ => SplitDelimiterBehavior::Contiguous,
    }
}

// What is printed of a refusal, in front of `out`. Here and below: how many bytes.
fn write_refusal(k: Refusal, out: &mut [u8]) -> usize
    requires { most ≤ length out.old }
    ensures { Laid (refusal k) out.old 0 result out.new }
{
    write_headline(b"refused ", u32::from(k) as usize, out)
}

// What is printed of pieces.
fn write_pieces(text: &[u8], starts: &[Offset], ends: &[Offset], out: &mut [u8]) -> usize
    requires { LineSpans text.now starts.now ends.now
        × (length (spans_text text.now starts.now ends.now) ≤ length out.old) }
    ensures { Laid (spans_text text.now starts.now ends.now)
        out.old 0 result out.new }
{
    let at = write_headline(b"pieces ", starts.len(), out);
    write_lines(text, starts, ends, out, at)
}

// What is printed of a note that its match list and a behaviour cut.
fn write_cut(list: &[u8], behavior: SplitDelimiterBehavior, text: &[u8], out: &mut [u8]) -> usize
    requires { Cuttable list.now text.now × (most ≤ length out.old) }
    ensures { Laid (pieces_text (starting text.now) (list_pieces behavior Kept list.now))
        out.old 0 result out.new }
{
    let mut spans = span_buffer();
    let mut starts = column_buffer();
    let mut ends = column_buffer();
    let count = write_spans(
        list,
        behavior,
        EmptyPieces::Kept,
        &mut spans,
        &mut starts,
        &mut ends,
    );
    write_pieces(text, &starts[..count], &ends[..count], out)
}

// What is printed of a literal, a behaviour and a note, neither line too long.
fn cut(literal: &[u8], behavior: SplitDelimiterBehavior, text: &[u8], out: &mut [u8]) -> usize
    requires { (length literal.now ≤ longest) × (length text.now ≤ longest) × (most ≤ length out.old) }
    ensures { Laid (told literal.now behavior text.now)
        out.old 0 result out.new }
{
    let mut list = list_buffer();
    match find_matches(text, literal, &mut list) {
        Err(k) => write_refusal(k, out),
        Ok(size) => write_cut(&list[..size], behavior, text, out),
    }
}

// What is printed of the input of which this is kept.
pub fn answer(head: &[u8], seen: Seen, out: &mut [u8]) -> usize
    requires { Keeps head.now seen × (most ≤ length out.old) }
    ensures { HeadPrinted head.now seen out.old result out.new }
{
    let Seen::Whole(literal, digit, text) = seen else {
        return write_refusal(Refusal::BadScript, out);
    };
    if LONGEST < literal {
        return write_refusal(Refusal::TooLong, out);
    }
    if LONGEST < text {
        return write_refusal(Refusal::TooLong, out);
    }
    let from = literal + 3;
    let to = from + text;
    cut(&head[..literal], behavior_of(digit), &head[from..to], out)
}

// What is printed of an input.
pub fn pieces(input: &[u8], out: &mut [u8]) -> usize
    requires { most ≤ length out.old }
    ensures { Laid (printed input.now) out.old 0 result out.new }
{
    let seen = scan(Seen::Literal(0), input);
    if input.len() <= KEPT {
        return answer(input, seen, out);
    }
    answer(&input[..KEPT], seen, out)
}
