//! Queries over many snapshots: that the calls succeed with memory at hand, and their answers by hand.
#![tactic(auto)]

#[cfg(test)]
mod answers;
#[cfg(test)]
mod folds;
#[cfg(test)]
mod intervals;
#[cfg(test)]
mod support;
#[cfg(test)]
mod table;
