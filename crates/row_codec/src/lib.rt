//! Rows as bytes: each row has one spelling, and no bytes are the spelling of two.
#![tactic(auto)]

mod laws;
mod reading;
mod value;
mod writing;

pub use laws::{one_row, row_size};
pub use reading::{decode, decode_into};
pub use writing::{encode, encoded_length};
