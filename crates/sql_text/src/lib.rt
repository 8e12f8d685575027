//! The text of the SQL: what a line says, or where its syntax breaks.
#![tactic(auto)]

mod reading;

pub use reading::{broken_lines_say_nothing, lines_break_at_one_place, parse, parse_lexed};
pub use sql_parts::{AsOf, Mechanism, Parsed, RqlCall};
