//! Values, rows, and lists that contracts see by their items.
#![tactic(auto)]

mod list;
mod name;
mod row;
mod text;
mod value;

pub use list::{Duplicate, Seq};
pub use name::{NAME_BYTES, Name, all_continue, begins_word, continues_word, is_name};
pub use row::row_bytes;
pub use text::{TEXT_BYTES, Text, is_printable, is_text};
pub use value::{Kind, Row, Value, compare, field, value_order};
