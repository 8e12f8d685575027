//! Checks the names and types of a statement before it is done, and tells the first that is unknown, taken or wrong.
#![tactic(auto)]

mod checking;
mod names;
mod outputs;
mod rows;
mod selects;

pub use checking::{check, check_beside, check_select, select_scope};
pub use names::is_reserved;
pub use outputs::answer_columns;
