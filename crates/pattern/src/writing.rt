// A place written into a list, and the room that places need. Inner functions: positions and room were judged before.
ghost use Rattle.std.specs.Prelude.{◌≡◌, true, ◌+◌, ◌≤◌, length};
ghost use Rattle.buffers.specs.Splice.{Laid};
ghost use Rattle.note.specs.Notes.{limit};
ghost use Rattle.pattern.specs.Encoding.{place_bytes, room_for, writable};

use crate::{MAX_PLACE_LEN, Place};
use numbers::little_endian::put_u16_le;

// Bytes that are enough for so many places; a text's matches have no more places than this demands.
pub fn room_for(places: usize) -> usize
    requires { places ≤ limit + limit + 1 }
    ensures { result ≡ room_for places }
{
    places * MAX_PLACE_LEN
}

// The place in the list from byte `i` on; where the next one begins.
pub fn write_place(place: Place, out: &mut [u8], i: usize) -> usize
    requires { (writable place ≡ true) × (i + length (place_bytes place) ≤ length out.old) }
    ensures { Laid (place_bytes place) out.old i result out.new }
{
    let start = place.start;
    let end = place.end;
    put_u16_le(start.0 as u16, out, i + 1);
    put_u16_le(end.0 as u16, out, i + 3);
    out[i] = 11 + place.matched as u8;
    i + 5
}
