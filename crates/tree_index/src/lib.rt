//! An index as a B+ tree of pages.
#![tactic(auto)]

mod climb;
mod filling;
mod index;
mod laws;
mod walk;

pub use index::TreeIndex;
pub use laws::opens_few;
