//! Builds the tree of a line from what the machine of the grammar puts out.
#![tactic(auto)]

mod draft;
mod pieces;
mod selects;

pub use draft::assemble;
