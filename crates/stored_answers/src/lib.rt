// Lists of stored answers: how a file is laid out in fields, how a case is packed, and columns by their differences.
// compare/src/list.rs writes what is read here.
#![tactic(auto)]

pub mod calls;
pub mod columns;
pub mod fields;
pub mod unpack;
