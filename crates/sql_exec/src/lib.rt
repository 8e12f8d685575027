//! Statements over the pages of a store: what they do to its tables is what they do to plain tables.
#![tactic(auto)]

mod adding;
mod asking;
mod bounds;
mod changing;
mod laws;
mod lengths;
mod making;
mod ranges;
mod reading;
mod running;
mod source;

pub use asking::ask;
pub use laws::bounds_hold;
pub use running::run;
