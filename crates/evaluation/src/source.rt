//! Where values come from, once names are bound.

ghost use Rattle.std.specs.Prelude.{◌≡◌, IfOk};
ghost use Rattle.evaluation.specs.Bound.{column_source, operand_source, seen_value, snapshot_source, source_value};

use crate::joined_row::JoinedRow;
use retro_base::Refusal;
use sql_tree::{ColumnName, Operand, Scope};
use std::alloc::{AllocError, Global};
use values::{Duplicate, Value};

/// Where a value comes from.
#[derive(Debug, Drop)]
pub enum Source {
    /// This value, at every row.
    Constant(Value),
    /// The value at a place of the row.
    Place(usize),
    /// A name that stands for nothing.
    Unknown,
}

impl Source {
    /// The column so named; `Unknown` where it has no place.
    pub fn column(scope: &Scope<'_>, name: &ColumnName) -> Source
        ensures { result ≡ column_source scope.now name.now }
    {
        match scope.place(name) {
            Some(place) => Source::Place(place),
            None => Source::Unknown,
        }
    }

    /// The number of `current_snapshot()`; `Unknown` where there is none.
    pub(crate) fn snapshot(snapshot: Option<u32>) -> Source
        ensures { result ≡ snapshot_source snapshot }
    {
        match snapshot {
            Some(number) => Source::Constant(Value::Int(i64::from(number))),
            None => Source::Unknown,
        }
    }

    /// A side of a comparison.
    pub(crate) fn operand(
        alloc: Global,
        scope: &Scope<'_>,
        snapshot: Option<u32>,
        operand: &Operand,
    ) -> Result<Source, AllocError>
        ensures { IfOk result (λ source. source ≡ operand_source scope.now snapshot operand.now) }
    {
        match operand {
            Operand::Column(name) => Ok(Source::column(scope, name)),
            Operand::Literal(value) => Ok(Source::Constant(value.copy(alloc)?)),
            Operand::CurrentSnapshot => Ok(Source::snapshot(snapshot)),
        }
    }

    /// The value at a row. Refused by UnknownName where there is none.
    pub fn value<'a>(&'a self, row: &JoinedRow<'a>) -> Result<&'a Value, Refusal>
        ensures { seen_value result ≡ source_value self.now row.now }
    {
        match self {
            Source::Constant(value) => Ok(value),
            Source::Place(place) => row.get(*place).ok_or(Refusal::UnknownName),
            Source::Unknown => Err(Refusal::UnknownName),
        }
    }
}
