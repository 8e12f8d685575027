//! The desk of a store: every call, with the line that it adds to the journal.
#![tactic(auto)]

mod commit;
mod committing;
mod copying;
mod desk_core;
mod dropping;
mod faults;
mod fetch;
mod looks;
mod pages;
mod telling;
mod works;

pub use copying::Peeked;
pub use desk_core::Core;
pub use fetch::sizes;
