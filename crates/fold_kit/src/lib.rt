//! How the calls over snapshots combine numbers (MIN, MAX, SUM): by closures that are handed in, each beside the fact
//! that it answers as it should.
#![tactic(auto)]

mod combiner;
mod fold_set;
mod how;
mod laws;

pub use combiner::{Combiner, Operation};
pub use fold_set::{FoldSet, Folds};
pub use how::How;
pub use laws::regroups;
