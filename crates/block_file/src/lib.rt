//! The pages of a store, and the page images of its archive: each a device of numbered blocks of 1,024 bytes.
#![tactic(auto)]

mod block;
mod page_file;
mod pagelog;

pub use page_file::PageFile;
pub use pagelog::Pagelog;
