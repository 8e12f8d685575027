//! The answer of a select over the rows of its one or two tables.
#![tactic(auto)]

mod aggregates;
mod answer;
mod filter;
mod grouping;
mod joining;
mod laws;
mod ordering;
mod output_row;
mod output_rows;
mod outputs;
mod row_key;
mod selecting;

pub use aggregates::{Best, better, count, whole};
pub use answer::Answer;
pub use filter::Filter;
pub use grouping::{KeyedRow, groups};
pub use joining::HasRow;
pub use laws::{
    distinct_leaves_one, groups_are_not_empty, limit_gives_a_front, min_is_least, order_keeps_rows,
    star_gives_rows,
};
pub use output_row::OutputRow;
pub use output_rows::all_there_over_none;
pub use outputs::{BoundAggregate, BoundList, BoundOutput};
pub use row_key::RowKey;
pub use selecting::{answer_of, select};
