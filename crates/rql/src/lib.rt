//! A query over many snapshots: its answers one after the other, their one values in one, and their groups in one
//! table.
#![tactic(auto)]

mod as_of;
mod better;
mod carried;
mod collating;
mod columns;
mod function;
mod gathering;
mod groups;
mod pair;
mod table;
mod tally;
mod variable;

pub use as_of::AsOf;
pub use collating::collate;
pub use columns::{has_name, has_twins};
pub use function::Function;
pub use gathering::{Takes, gather};
pub use pair::Pair;
pub use table::{in_table, tables_fit};
pub use variable::in_variable;
