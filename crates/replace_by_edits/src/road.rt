// The road from the last matched place to the first, in two sets of scratch buffers: an edit reads the set that holds
// the note and writes the other. Each function here is an inner one: the list covers the text, the content is UTF-8,
// and there is room for every text in between and for the result.
ghost use Rattle.std.specs.Prelude.{[], ◌≤◌};
ghost use Rattle.note.specs.Notes.{lent};
ghost use Rattle.replace_by_edits.specs.ByEdits.{scratch, scratch_room};
ghost use Rattle.replace_by_edits.specs.Road.{edited_place};
ghost use Rattle.replace_by_edits.specs.Stepping.{AddedLaid, AddedRoom, HeldRoom, NoteLaid, PlaceEditRoom};
ghost use Rattle.replace_by_edits.specs.Stepping.{RoadLaid, RoadReady, RoadRoom, RoadTaken, StepReady};
ghost use Rattle.replace_by_edits.specs.Stepping.{StepTaken, at_first, held_note};

use buffers::parts::keep;
use buffers::{Offset, copy, fill};
use note::before_end;
use pattern::{Place, most_places, place_at};

// How many bytes the note in between has, and whether it is in front of the second set or of the first. The flag says
// of no field that it is missing.
#[derive(Clone, Copy)]
pub struct Current {
    pub len: usize,
    pub in_second: bool,
}

// The content at `at`, where its place begins. Its bytes carry what is before `to`, where the place ends.
fn lay_content(
    starts: &[Offset],
    ends: &[Offset],
    to: usize,
    content: &[u8],
    out: &mut [u8],
    out_starts: &mut [Offset],
    out_ends: &mut [Offset],
    at: usize,
)
    requires { AddedRoom starts.now ends.now to content.now out.old out_starts.old out_ends.old at }
    ensures { AddedLaid starts.now ends.now to content.now
        out.old out_starts.old out_ends.old at
        out.new out_starts.new out_ends.new }
{
    let more = content.len();
    copy(content, out, at);
    fill(before_end(starts, to), more, out_starts, at);
    fill(before_end(ends, to), more, out_ends, at);
}

// The text with the content in the place of its range, whose bytes carry what is before the range's end; how many bytes
// that is.
fn edit_place(
    text: &[u8],
    starts: &[Offset],
    ends: &[Offset],
    place: Place,
    content: &[u8],
    out: &mut [u8],
    out_starts: &mut [Offset],
    out_ends: &mut [Offset],
) -> usize
    requires { PlaceEditRoom (lent [] text.now starts.now ends.now 0) place content.now
        out.old out_starts.old out_ends.old }
    ensures { NoteLaid (edited_place content.now place.start.0 place.end.0
        (lent [] text.now starts.now ends.now 0))
        out.old out_starts.old out_ends.old
        result out.new out_starts.new out_ends.new }
{
    let start = place.start;
    let end = place.end;
    let from = start.0 as usize;
    let to = end.0 as usize;
    keep(text, starts, ends, 0, from, out, out_starts, out_ends, 0);
    lay_content(starts, ends, to, content, out, out_starts, out_ends, from);
    let at = from + content.len();
    keep(
        text,
        starts,
        ends,
        to,
        text.len(),
        out,
        out_starts,
        out_ends,
        at,
    );
    at + (text.len() - to)
}

// One place edited, from the set that holds the note into the other.
fn edit_held(
    held: Current,
    place: Place,
    content: &[u8],
    first: &mut [u8],
    first_starts: &mut [Offset],
    first_ends: &mut [Offset],
    second: &mut [u8],
    second_starts: &mut [Offset],
    second_ends: &mut [Offset],
) -> Current
    requires { StepReady held place content.now (scratch first.old first_starts.old first_ends.old)
        (scratch second.old second_starts.old second_ends.old) }
    ensures { StepTaken held place content.now
        (scratch first.old first_starts.old first_ends.old)
        (scratch second.old second_starts.old second_ends.old)
        result
        (scratch first.new first_starts.new first_ends.new)
        (scratch second.new second_starts.new second_ends.new) }
{
    let n = held.len;
    if held.in_second {
        let len = edit_place(
            &second[..n],
            &second_starts[..n],
            &second_ends[..n],
            place,
            content,
            first,
            first_starts,
            first_ends,
        );
        return Current {
            len,
            in_second: false,
        };
    }
    let len = edit_place(
        &first[..n],
        &first_starts[..n],
        &first_ends[..n],
        place,
        content,
        second,
        second_starts,
        second_ends,
    );
    Current {
        len,
        in_second: true,
    }
}

// Every matched place edited, the last one first; the note is in front of the first set at first.
fn take_road(
    len: usize,
    list: &[u8],
    content: &[u8],
    first: &mut [u8],
    first_starts: &mut [Offset],
    first_ends: &mut [Offset],
    second: &mut [u8],
    second_starts: &mut [Offset],
    second_ends: &mut [Offset],
) -> Current
    requires { RoadReady
        (held_note (at_first len) (scratch first.old first_starts.old first_ends.old)
        (scratch second.old second_starts.old second_ends.old))
        list.now content.now
        (scratch first.old first_starts.old first_ends.old)
        (scratch second.old second_starts.old second_ends.old)
        × (len ≤ scratch_room (scratch first.old first_starts.old first_ends.old)
        (scratch second.old second_starts.old second_ends.old)) }
    ensures { RoadTaken
        (held_note (at_first len)
        (scratch first.old first_starts.old first_ends.old)
        (scratch second.old second_starts.old second_ends.old))
        list.now content.now
        (scratch first.old first_starts.old first_ends.old)
        (scratch second.old second_starts.old second_ends.old)
        result
        (scratch first.new first_starts.new first_ends.new)
        (scratch second.new second_starts.new second_ends.new) }
{
    let mut held = Current {
        len,
        in_second: false,
    };
    for k in (0..most_places(list)).rev() {
        let place = place_at(list, k);
        if place.matched {
            held = edit_held(
                held,
                place,
                content,
                first,
                first_starts,
                first_ends,
                second,
                second_starts,
                second_ends,
            );
        }
    }
    held
}

// The note that the sets hold, in front of the passed buffers; how many bytes it has.
fn hand_out(
    held: Current,
    first: &[u8],
    first_starts: &[Offset],
    first_ends: &[Offset],
    second: &[u8],
    second_starts: &[Offset],
    second_ends: &[Offset],
    out: &mut [u8],
    out_starts: &mut [Offset],
    out_ends: &mut [Offset],
) -> usize
    requires { HeldRoom held (scratch first.now first_starts.now first_ends.now)
        (scratch second.now second_starts.now second_ends.now)
        out.old out_starts.old out_ends.old }
    ensures { NoteLaid (held_note held
        (scratch first.now first_starts.now first_ends.now)
        (scratch second.now second_starts.now second_ends.now))
        out.old out_starts.old out_ends.old
        result out.new out_starts.new out_ends.new }
{
    let n = held.len;
    if held.in_second {
        keep(
            second,
            second_starts,
            second_ends,
            0,
            n,
            out,
            out_starts,
            out_ends,
            0,
        );
        return n;
    }
    keep(
        first,
        first_starts,
        first_ends,
        0,
        n,
        out,
        out_starts,
        out_ends,
        0,
    );
    n
}

// The whole road: the note goes into the first set, is edited, and is handed out; how many bytes it has then.
pub fn lay_road(
    normalized: &[u8],
    starts: &[Offset],
    ends: &[Offset],
    list: &[u8],
    content: &[u8],
    out: &mut [u8],
    out_starts: &mut [Offset],
    out_ends: &mut [Offset],
    first: &mut [u8],
    first_starts: &mut [Offset],
    first_ends: &mut [Offset],
    second: &mut [u8],
    second_starts: &mut [Offset],
    second_ends: &mut [Offset],
) -> usize
    requires { RoadRoom (lent [] normalized.now starts.now ends.now 0) list.now content.now
        out.old out_starts.old out_ends.old
        (scratch first.old first_starts.old first_ends.old)
        (scratch second.old second_starts.old second_ends.old) }
    ensures { RoadLaid (lent [] normalized.now starts.now ends.now 0)
        list.now content.now
        out.old out_starts.old out_ends.old
        (scratch first.old first_starts.old first_ends.old)
        (scratch second.old second_starts.old second_ends.old)
        result out.new out_starts.new out_ends.new
        (scratch first.new first_starts.new first_ends.new)
        (scratch second.new second_starts.new second_ends.new) }
{
    let len = normalized.len();
    keep(
        normalized,
        starts,
        ends,
        0,
        len,
        first,
        first_starts,
        first_ends,
        0,
    );
    let held = take_road(
        len,
        list,
        content,
        first,
        first_starts,
        first_ends,
        second,
        second_starts,
        second_ends,
    );
    hand_out(
        held,
        first,
        first_starts,
        first_ends,
        second,
        second_starts,
        second_ends,
        out,
        out_starts,
        out_ends,
    )
}
