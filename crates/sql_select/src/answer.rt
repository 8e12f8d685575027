//! The answer of a select.

use sql_tree::Column;
use values::{Row, Seq};

/// The answer of a select: its columns, and its rows in order, each with one value of each column's kind.
#[derive(Debug, Drop)]
pub struct Answer {
    pub columns: Seq<Column>,
    pub rows: Seq<Row>,
}
