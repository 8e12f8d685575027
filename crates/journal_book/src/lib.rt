//! The book of a desk: the lines of its journal, with places kept for lines to come, and what each session has open.
#![tactic(auto)]

mod book;
mod edits;
mod mark;
mod work;
mod works;

pub use book::Book;
pub use edits::{edit_of, has_page};
pub use work::{Look, Transaction, Work};
pub use works::Works;
