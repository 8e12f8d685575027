//! The arguments of a call over many snapshots: what they say, and the first that is outside its form.
#![tactic(auto)]

mod call;
mod pairs;
mod query;
mod word;

pub use call::{Call, Combination, call_of};
