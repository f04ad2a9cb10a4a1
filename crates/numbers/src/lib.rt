// Numbers in passed buffers: little-endian and decimal, each with one definition and its inverse law.
// Each function here is an inner one: its callers have measured the room before.
#![tactic(auto)]

pub mod decimals;
pub mod little_endian;
