//! The intervals in which the rows of a query's answers stand, over many snapshots.
#![tactic(auto)]

mod row_set;
mod runs;
mod runs_so_far;

pub use runs::{intervals, runs_are_intervals};
