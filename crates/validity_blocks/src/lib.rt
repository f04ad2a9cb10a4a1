// A byte judged with the three before it: whether it can stand where it does, for each byte of a block at once.
#![tactic(auto)]

pub mod blocks;
pub mod bytes;
pub mod extremes;
