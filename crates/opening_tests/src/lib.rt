//! What four devices open to: stores worked by hand, byte for byte, and the first break of a damaged one.
#![tactic(auto)]

mod stores;
#[cfg(test)]
mod tests;

pub use stores::{begin, made, put};
