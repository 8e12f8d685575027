//! Rows of one table, or of two side by side.

ghost use Rattle.std.specs.Option.{option_copied};
ghost use Rattle.std.specs.Prelude.{◌≡◌, ◌++◌, [], IfOk, OnOk, slice_get};

use sql_tree::side_by_side;
use std::alloc::{AllocError, Global};
use std::marker::Model;
use values::{Duplicate, Row, Seq, Value};

/// A row of one table, or a row of it beside one of another. Contracts see the values, those of the first before those
/// of the second.
#[derive(Debug, Drop)]
pub struct JoinedRow<'a> {
    first: &'a [Value],
    second: &'a [Value],
}

impl<'a> Model for JoinedRow<'a> {
    ghost use Rattle.std.specs.Prelude.{◌++◌, List};
    ghost use Rattle.values.specs.declared.value.Value as value;

    ghost Value = { List value.Value };

    ghost view = { λ r. r.first.now ++ r.second.now };
}

impl<'a> JoinedRow<'a> {
    /// No values.
    pub fn empty() -> JoinedRow<'a>
        ensures { result ≡ [] }
    {
        JoinedRow {
            first: &[],
            second: &[],
        }
    }

    /// A row of one table.
    pub fn of_one(row: &'a [Value]) -> JoinedRow<'a>
        ensures { result ≡ row.now }
    {
        JoinedRow {
            first: row,
            second: &[],
        }
    }

    /// A row beside one of another table.
    pub fn of_two(first: &'a [Value], second: &'a [Value]) -> JoinedRow<'a>
        ensures { result ≡ first.now ++ second.now }
    {
        JoinedRow { first, second }
    }

    /// The value at a place.
    pub fn get(&self, place: usize) -> Option<&'a Value>
        ensures { option_copied result ≡ slice_get self.now place }
    {
        side_by_side(place, self.first, self.second)
    }

    /// A row of its own with the same values.
    pub fn to_row(&self, alloc: Global) -> Result<Row, AllocError>
        ensures { IfOk result (λ row. row ≡ self.now) }
    {
        let count = self.first.len().saturating_add(self.second.len());
        let mut values = Vec::with_capacity(alloc, count)?;
        append_copies(alloc, self.first, &mut values)?;
        append_copies(alloc, self.second, &mut values)?;
        Ok(Seq::from(values))
    }
}

fn append_copies(alloc: Global, values: &[Value], row: &mut Vec<Value>) -> Result<(), AllocError>
    ensures { OnOk result (row.new.items ≡ row.old.items ++ values.now) }
{
    for value in values {
        row.push(value.copy(alloc)?)?;
    }
    Ok(())
}
