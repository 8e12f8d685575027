//! The plain store: pages in memory and the journal as a list, for sessions one after the other. It has no devices, and
//! no fault comes.
#![tactic(auto)]

mod commit;
mod edits;
mod laws;
mod limits;
mod lines;
mod numbers;
mod page;
mod pages;
mod seat;
mod store;
mod work;

pub use laws::laws_of_turns;
pub use store::PlainStore;
