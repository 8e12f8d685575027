//! The archive of past pages: a ring of slots for their bytes, and the numbered mappings that say whose they are.
#![tactic(auto)]

mod archive;
mod laws;
mod opening;
mod side;
mod slots;

pub use archive::Archive;
pub use laws::{images_have_slots, tables_are_kept};
