// Stored answers of the calls that publish a note, replayed: a part of `replay` of its own, by what it takes to prove.
#![tactic(auto)]

mod matches;
pub mod publishing;
mod road;
mod scripts;
mod told;
mod whole;
