//! The devices of a new store: made from zeros, they open to the empty store.
#![tactic(auto)]

mod making;

pub use making::format;
