//! What tables and indexes there are.

use crate::statement::Column;
use std::alloc::{AllocError, Global};
use values::{Duplicate, Name, Seq};

/// A table: its name and its columns in order.
#[derive(Debug, Drop)]
pub struct TableSchema {
    pub name: Name,
    pub columns: Seq<Column>,
}

impl Duplicate for TableSchema {
    fn copy(&self, alloc: Global) -> Result<TableSchema, AllocError> {
        Ok(TableSchema {
            name: self.name.copy(alloc)?,
            columns: self.columns.copy(alloc)?,
        })
    }
}

/// An index over a column of a table.
#[derive(Debug, Drop)]
pub struct IndexSchema {
    pub name: Name,
    pub table: Name,
    pub column: Name,
}

impl Duplicate for IndexSchema {
    fn copy(&self, alloc: Global) -> Result<IndexSchema, AllocError> {
        Ok(IndexSchema {
            name: self.name.copy(alloc)?,
            table: self.table.copy(alloc)?,
            column: self.column.copy(alloc)?,
        })
    }
}

/// The tables and indexes, in the order in which they were made.
#[derive(Debug, Drop)]
pub struct Schema {
    pub tables: Seq<TableSchema>,
    pub indexes: Seq<IndexSchema>,
}

impl Duplicate for Schema {
    fn copy(&self, alloc: Global) -> Result<Schema, AllocError> {
        Ok(Schema {
            tables: self.tables.copy(alloc)?,
            indexes: self.indexes.copy(alloc)?,
        })
    }
}
