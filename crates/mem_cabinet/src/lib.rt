//! Stores in memory, by name: a cabinet of devices that fail as a test says.
#![tactic(auto)]

mod cabinet;

pub use cabinet::MemCabinet;
