//! The grammar of the SQL as data, and the machine that reads a sentence by it.
#![tactic(auto)]

mod grammar;
mod machine;
mod sentences;
mod symbols;
mod table;

pub use grammar::{Class, Room, Rule, Symbol};
pub use machine::Machine;
