// A number of one text taken for the same number of the other, on purpose, and where: nothing else changes what text a
// number is of.
ghost use Rattle.std.specs.Prelude.{◌≡◌};

use crate::{NormalizedByte, OriginalByte};

// An empty range is not converted (RULES 4.2): it has the same numbers in the other text.
pub fn same_in_normalized(b: OriginalByte) -> NormalizedByte
    ensures { result ≡ record { 0 = b.0 } }
{
    NormalizedByte(b.0)
}

pub fn same_in_original(b: NormalizedByte) -> OriginalByte
    ensures { result ≡ record { 0 = b.0 } }
{
    OriginalByte(b.0)
}

// Split offsets in characters (RULES 13.3): the offset of a piece in the cleaned text is looked up as a byte of the
// transcript.
pub fn looked_up_as_original(b: NormalizedByte) -> OriginalByte
    ensures { result ≡ record { 0 = b.0 } }
{
    OriginalByte(b.0)
}
