//! Tables as chains of pages: rows under numbers of their own, over any pager.
#![tactic(auto)]

mod appending;
mod calls;
mod chain;
pub mod drafting;
mod entries;
mod filling;
mod laws;
mod page;
mod removing;
mod scanning;

pub use calls::{add, change, get, make, next_number, remove, scan};
pub use chain::{Link, Placed};
pub use laws::{answers_are_one, holds_one, written_holds, zero_is_empty};
pub use scanning::{Everything, Sieve};
