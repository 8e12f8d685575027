//! The catalog and the tables of a store, over any pager.
#![tactic(auto)]

mod calls;
mod catalog;
mod drafting;
mod listing;
mod named;
mod ranging;
mod row;
mod sieving;

pub use calls::{
    create_index, create_table, delete, insert, next_number, open, ranged, ranged_by, rows,
    rows_by, show_rows, update,
};
pub use catalog::{Catalog, StoredIndex, StoredTable};
pub use drafting::RowChange;
pub use heap_file::{Placed, Sieve};
