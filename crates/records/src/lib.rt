//! The bytes of the records of a store's two logs, and what lists of records stand for: the log, and the mappings
//! that a Maplog keeps.
#![tactic(auto)]

mod decoding;
mod encoding;
mod entry;
mod laws;
mod log;
mod map_decoding;
mod map_encoding;
mod map_entry;
mod maplog;
mod unread;

pub use decoding::{DecodeError, decode};
pub use encoding::{encode, encode_base};
pub use entry::Entry;
pub use laws::{laws_of_bases, laws_of_records, lists_are_read_one_way};
pub use log::read_log;
pub use map_decoding::decode_mapping;
pub use map_encoding::{low_body, run_body, start_body};
pub use map_entry::{MapEntry, RUN_PAGES};
pub use maplog::read_maplog;
