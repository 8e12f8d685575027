//! Assignments whose names are bound.

ghost use Rattle.std.specs.Prelude.{◌≡◌, IfOk, map};
ghost use Rattle.retro_base.specs.Gives.{Gives};
ghost use Rattle.tables.specs.Bound.{assigns, assigns_all, part, part_of};
ghost use Rattle.tables.specs.Meaning.{assigned};

use evaluation::{BoundExpression, JoinedRow, Stack};
use retro_base::Refusal;
use sql_tree::{Assignment, Scope, TableSchema, column_place};
use std::alloc::{AllocError, Global};
use values::{Duplicate, Row, Seq, Value};

/// An assignment to the column at a place, if there is such a column.
#[derive(Debug, Drop)]
pub(crate) struct BoundAssignment {
    pub place: Option<usize>,
    pub value: BoundExpression,
}

/// The assignments of an UPDATE, with their names bound.
#[derive(Debug, Drop)]
pub struct BoundAssignments {
    assignments: Seq<BoundAssignment>,
}

impl BoundAssignments {
    /// The assignments over the columns of a table; `snapshot` is the number of `current_snapshot()`.
    pub fn bind(
        alloc: Global,
        table: &TableSchema,
        snapshot: Option<u32>,
        assignments: &[Assignment],
    ) -> Result<BoundAssignments, AllocError>
        ensures { IfOk result (λ bound. assigns bound ≡ (λ row. assigned table.now snapshot row assignments.now row)) }
    {
        let assignments = bind_all(alloc, table, snapshot, assignments)?;
        Ok(BoundAssignments { assignments })
    }

    /// The row with its values set, each worked out from the row as it was. `stack` may hold anything. Refused as the
    /// values are, and by UnknownName for a column that is not there.
    pub fn assigned(
        &self,
        alloc: Global,
        row: &Row,
        stack: &mut Stack<Value>,
    ) -> Result<Row, Refusal>
        ensures { Gives (λ row. row) result (assigns self.now row.now) }
    {
        let mut values = Vec::from(row.copy(alloc)?);
        let before = JoinedRow::of_one(row.as_slice());
        assign(
            alloc,
            self.assignments.as_slice(),
            &before,
            stack,
            &mut values,
        )?;
        Ok(Seq::from(values))
    }
}

fn bind_all(
    alloc: Global,
    table: &TableSchema,
    snapshot: Option<u32>,
    assignments: &[Assignment],
) -> Result<Seq<BoundAssignment>, AllocError>
    ensures { IfOk result (λ bound. map part bound ≡ map (part_of table.now snapshot) assignments.now) }
{
    let scope = Scope::of_one(table);
    let columns = table.columns.as_slice();
    let mut bound = Vec::with_capacity(alloc, assignments.len())?;
    for assignment in assignments {
        let place = column_place(&assignment.column, columns);
        let value = BoundExpression::bind(alloc, &scope, snapshot, &assignment.value)?;
        bound.push(BoundAssignment { place, value })?;
    }
    Ok(Seq::from(bound))
}

// Sets a row's values, each worked out from the row as it was before.
fn assign(
    alloc: Global,
    assignments: &[BoundAssignment],
    before: &JoinedRow<'_>,
    stack: &mut Stack<Value>,
    row: &mut Vec<Value>,
) -> Result<(), Refusal>
    ensures { Gives (λ _. row.new.items) result (assigns_all assignments.now before.now row.old.items) }
{
    for assignment in assignments {
        let value = assignment.value.value(alloc, before, stack)?;
        let place = assignment.place.ok_or(Refusal::UnknownName)?;
        if place < row.len() {
            row[place] = value;
        }
    }
    Ok(())
}
