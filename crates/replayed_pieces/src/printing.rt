// What the program `pieces` prints.
ghost use Rattle.std.specs.Prelude.{◌≡◌};
ghost use Rattle.buffers.specs.Same.{same};
ghost use Rattle.piece_lines.specs.Printing.{printed as Printing·printed};
ghost use Rattle.stored_answers.specs.Framing.{field_of};

use piece_lines::{out_buffer, pieces};
use stored_answers::fields::{field, is_text};

// An input; what is printed of it.
pub fn printed(case: &[u8]) -> bool
    ensures { result ≡ same (field_of 1 case.now) (Printing·printed (field_of 0 case.now)) }
{
    let mut out = out_buffer();
    let size = pieces(field(case, 0), &mut out);
    is_text(case, 1, &out[..size])
}
