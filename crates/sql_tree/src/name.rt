//! The name of a column as a statement writes it.

ghost use Rattle.std.specs.Prelude.{◌≡◌, IfOk};

use std::alloc::{AllocError, Global};
use values::{Duplicate, Name};

/// A column's name, as it is or behind its table's name and a dot.
#[derive(Debug, Drop)]
pub struct ColumnName {
    pub table: Option<Name>,
    pub column: Name,
}

impl Duplicate for ColumnName {
    fn copy(&self, alloc: Global) -> Result<ColumnName, AllocError> {
        Ok(ColumnName {
            table: copy_optional(alloc, &self.table)?,
            column: self.column.copy(alloc)?,
        })
    }
}

/// A copy of what is there, if anything is.
pub(crate) fn copy_optional<T: Duplicate + Drop>(
    alloc: Global,
    item: &Option<T>,
) -> Result<Option<T>, AllocError>
    ensures { IfOk result (λ copy. copy ≡ item.now) }
{
    match item {
        Some(item) => Ok(Some(item.copy(alloc)?)),
        None => Ok(None),
    }
}
