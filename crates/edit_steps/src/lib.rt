// An edit, command by command (RULES 7; Rust: the closure of `transform_range`): the running position, what is laid.
#![tactic(auto)]

pub mod laying;
pub mod walking;
