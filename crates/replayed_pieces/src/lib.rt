// Stored answers of the calls that cut a note, of those on lists of pairs, and of the program `pieces`, replayed: a
// part of `replay` of its own, by what it takes to prove.
#![tactic(auto)]

pub mod pairs;
pub mod pieces;
pub mod printing;
pub mod slices;
pub mod told;
