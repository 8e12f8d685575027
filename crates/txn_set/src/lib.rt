//! The transactions' half of a desk, over its journal alone: the exact refusal of each call, and the journal with
//! the works of the sessions behind it.
#![tactic(auto)]

mod counts;
mod ending;
mod laws;
mod ledger;
mod refusing;

pub use counts::Counts;
pub use ending::Ending;
pub use laws::{law_of_drops, laws_of_commits, laws_of_pins};
pub use ledger::Ledger;
pub use refusing::{commit_refused, drop_refused, edit_refused, look_refused, read_refused};
