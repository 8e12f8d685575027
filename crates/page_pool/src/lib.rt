//! The pages of a store in memory, over their device: those that are dirty or held stay, of the others a number of the
//! most recently used.
#![tactic(auto)]

mod clean;
mod frames;
mod pool;

pub use pool::PagePool;
