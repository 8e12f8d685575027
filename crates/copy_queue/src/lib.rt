//! The captures of the desk that the archive is not known to hold, in order, and by page.
#![tactic(auto)]

mod queue;

pub use queue::CopyQueue;
