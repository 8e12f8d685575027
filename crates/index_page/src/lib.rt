//! Pages of indexes: their bytes, and what adding and taking out make of the entries of a page.
#![tactic(auto)]

mod entries;
mod laws;
mod page;
mod paging;
mod reading;

pub use entries::{copy_of, insert, is_below, is_past, place_of, select, take_out};
pub use laws::{four_fit, halves_fit, holds_one, written_holds};
pub use page::{ENTRY_BYTES, Form, IndexPage, halves, width};
pub use paging::{are_of_kind, load, load_any, store};
