//! The script of a load: four tables, rounds of one update in each, a snapshot behind every round, and what the tables
//! and the snapshots hold at the end. A seed and a number of rounds decide it.
#![tactic(auto)]

mod load;
mod numbers;
mod rounds;
mod writing;

pub use load::script_of;

/// The tables of a load, numbered from 0.
const TABLES: u32 = 4;
