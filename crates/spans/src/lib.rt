// Where the pieces of a match list start and end (RULES 11), written into passed columns: both ends of a piece in one
// number first, so that a place is read and stored at once. Inner functions: the list and the room were judged before.
#![tactic(auto)]

ghost use Rattle.std.specs.Prelude.{◌≡◌};
ghost use Rattle.note.specs.Notes.{limit};
ghost use Rattle.behaviors.specs.declared.SplitDelimiterBehavior.TheVariants.{Isolated};
ghost use Rattle.behaviors.specs.Runs.{list_pieces};
ghost use Rattle.spans.specs.Packing.{span_end, PackedLaid, PackedRoom, RunLaid, RunRoom};
ghost use Rattle.spans.specs.Packing.{SpansLaid, SpansRoom, span_start, Unpacked, UnpackRoom};

use behaviors::{
    EmptyPieces, SplitDelimiterBehavior, extend_run, is_dropped, is_kept_run, join_table, joined,
};
use buffers::Offset;
use note::LIMIT;
use pattern::{Place, entry_at, most_places, place_at};

// One more than any position of a text within the limit.
const BASE: u32 = LIMIT as u32 + 1;

// The start of a piece, and its end, in the number that holds both.
pub fn span_start(span: u32) -> u32
    ensures { result ≡ span_start span }
{
    span % BASE
}

pub fn span_end(span: u32) -> u32
    ensures { result ≡ span_end span }
{
    span / BASE
}

// A piece's number at `at`, where there is one; where the next piece is.
fn write_run(met: bool, run: Place, spans: &mut [u32], at: usize) -> usize
    requires { RunRoom limit met run spans.old at }
    ensures { RunLaid met run spans.old at result spans.new }
{
    if met {
        let start = run.start;
        let end = run.end;
        spans[at] = start.0 + end.0 * BASE;
        return at + 1;
    }
    at
}

// The pieces of a list of which each place is one, unless it is empty and such are dropped: by index.
fn write_places(list: &[u8], empty: EmptyPieces, spans: &mut [u32]) -> usize
    requires { PackedRoom limit list.now Isolated empty spans.old }
    ensures { PackedLaid (list_pieces Isolated empty list.now)
        spans.old result spans.new }
{
    let count = most_places(list);
    let mut at = 0;
    for k in 0..count {
        let place = place_at(list, k);
        at = write_run(!is_dropped(empty, place), place, spans, at);
    }
    at
}

// The pieces of a list whose places are gathered into runs.
fn write_runs(
    list: &[u8],
    behavior: SplitDelimiterBehavior,
    empty: EmptyPieces,
    spans: &mut [u32],
) -> usize
    requires { PackedRoom limit list.now behavior empty spans.old }
    ensures { PackedLaid (list_pieces behavior empty list.now)
        spans.old result spans.new }
{
    let Some((first, second)) = entry_at(list, 0) else {
        return 0;
    };
    let table = join_table(behavior);
    let mut run = first;
    let mut i = second;
    let mut at = 0;
    while i < list.len() {
        let Some((place, next)) = entry_at(list, i) else {
            break;
        };
        let joins = joined(&table, run.matched, place.matched);
        at = write_run(!joins & is_kept_run(behavior, empty, run), run, spans, at);
        run = extend_run(joins, run, place);
        i = next;
    }
    write_run(is_kept_run(behavior, empty, run), run, spans, at)
}

// The pieces of a list, in front of a column that has room for them; how many.
pub fn write_packed(
    list: &[u8],
    behavior: SplitDelimiterBehavior,
    empty: EmptyPieces,
    spans: &mut [u32],
) -> usize
    requires { PackedRoom limit list.now behavior empty spans.old }
    ensures { PackedLaid (list_pieces behavior empty list.now)
        spans.old result spans.new }
{
    match behavior {
        SplitDelimiterBehavior::Isolated => write_places(list, empty, spans),
        _ => write_runs(list, behavior, empty, spans),
    }
}

// The numbers of `spans` taken apart, in front of two columns.
fn unpack(spans: &[u32], starts: &mut [Offset], ends: &mut [Offset])
    requires { UnpackRoom spans.now starts.old ends.old }
    ensures { Unpacked spans.now starts.old ends.old
        starts.new ends.new }
{
    for (k, span) in spans.iter().enumerate() {
        starts[k] = span_start(*span) as Offset;
        ends[k] = span_end(*span) as Offset;
    }
}

// Where each piece of a list starts and where it ends, in front of two columns that have room for them; how many. The
// third has room for as many numbers, which are left there.
pub fn write_spans(
    list: &[u8],
    behavior: SplitDelimiterBehavior,
    empty: EmptyPieces,
    spans: &mut [u32],
    starts: &mut [Offset],
    ends: &mut [Offset],
) -> usize
    requires { SpansRoom limit list.now behavior empty spans.old starts.old ends.old }
    ensures { SpansLaid (list_pieces behavior empty list.now)
        spans.old starts.old ends.old
        result spans.new starts.new ends.new }
{
    let count = write_packed(list, behavior, empty, spans);
    unpack(&spans[..count], starts, ends);
    count
}
