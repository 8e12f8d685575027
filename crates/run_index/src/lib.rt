//! An index as a sorted chain of pages: the plainer body of the trait `Index`, which no program uses.
#![tactic(auto)]

mod index;
mod laws;
mod walk;

pub use index::RunIndex;
pub use laws::opens_few;
