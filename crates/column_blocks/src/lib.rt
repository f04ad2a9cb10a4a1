// The starts, or the ends, of 64 bytes of a text at once, in a column: counted from the bytes beside each, without a
// branch, so that the loops are vectorised. How few bytes beside tell it goes by the longest character that there is.
// Each function here is an inner one: the text and the room were judged before.
#![tactic(auto)]

pub mod pairs;
pub mod plain;
pub mod runs;

// The bytes of a block.
pub const BLOCK: usize = 64;
