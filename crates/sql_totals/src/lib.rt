//! The aggregates of a select, added up as its rows are read: no row is kept.
#![tactic(auto)]

mod totals;

pub use totals::{Totals, is_of_one_group};
