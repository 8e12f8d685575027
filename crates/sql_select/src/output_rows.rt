//! The rows of an answer, before DISTINCT, ORDER BY and LIMIT.

ghost use Rattle.std.specs.Prelude.{◌≡◌, IfOk, Ok, map};
ghost use Rattle.std.specs.List.{list_all};
ghost use Rattle.retro_base.specs.Gives.{Gives};
ghost use Rattle.evaluation.specs.Bound.{column_source};
ghost use Rattle.sql_select.specs.Bound.{grouped_by, keyed_by, list_over, row_by, row_by_group, values_at};
ghost use Rattle.sql_select.specs.Each.{each};
ghost use Rattle.sql_select.specs.Outputs.{is_there_over_none};
ghost use Rattle.sql_select.specs.Select.{groups_by, keyed_row, output_rows, single_group};

use crate::grouping::{KeyedRow, groups};
use crate::output_row::OutputRow;
use crate::outputs::{BoundList, is_there_over_none};
use evaluation::{JoinedRow, Source, Stack};
use retro_base::Refusal;
use sql_tree::{ColumnName, Output, Scope, Select, SelectList};
use std::alloc::{AllocError, Global};
use std::slice;
use values::{Duplicate, Row, Seq};

/// The rows of the answer, before DISTINCT, ORDER BY and LIMIT.
pub(crate) fn output_rows<'a>(
    alloc: Global,
    scope: &Scope<'_>,
    snapshot: Option<u32>,
    select: &Select,
    rows: Vec<JoinedRow<'a>>,
) -> Result<Vec<OutputRow<'a>>, Refusal>
    ensures { Gives (λ found. found.items) result (output_rows scope.now snapshot select.now rows.entry.items) }
{
    let list = BoundList::bind(alloc, scope, snapshot, &select.list)?;
    if select.is_grouped() {
        rows_of_groups(alloc, scope, select, &list, rows)
    } else {
        rows_of_rows(alloc, &list, rows)
    }
}

fn rows_of_rows<'a>(
    alloc: Global,
    list: &BoundList,
    rows: Vec<JoinedRow<'a>>,
) -> Result<Vec<OutputRow<'a>>, Refusal>
    ensures { Gives (λ found. found.items) result (each (row_by (list_over list.now)) rows.entry.items) }
{
    let mut found = Vec::with_capacity(alloc, rows.len())?;
    let mut stack = Stack::new(alloc);
    for row in rows {
        let outputs = list.over(alloc, slice::from_ref(&row), &mut stack)?;
        let origin = row;
        found.push(OutputRow { outputs, origin })?;
    }
    Ok(found)
}

fn rows_of_groups<'a>(
    alloc: Global,
    scope: &Scope<'_>,
    select: &Select,
    list: &BoundList,
    rows: Vec<JoinedRow<'a>>,
) -> Result<Vec<OutputRow<'a>>, Refusal>
    ensures { Gives (λ found. found.items) result (grouped_by scope.now select.now.group_by select.now.list
        (list_over list.now) rows.entry.items) }
{
    let SelectList::Outputs(outputs) = &select.list else {
        return Err(Refusal::WrongType);
    };
    let columns = select.group_by.as_slice();
    let groups = groups_by(alloc, scope, columns, outputs.as_slice(), rows)?;
    rows_of_each_group(alloc, list, groups)
}

fn rows_of_each_group<'a>(
    alloc: Global,
    list: &BoundList,
    groups: Vec<Seq<JoinedRow<'a>>>,
) -> Result<Vec<OutputRow<'a>>, Refusal>
    ensures { Gives (λ found. found.items) result (each (row_by_group (list_over list.now)) groups.entry.items) }
{
    let mut found = Vec::with_capacity(alloc, groups.len())?;
    let mut stack = Stack::new(alloc);
    for group in &groups {
        let outputs = list.over(alloc, group.as_slice(), &mut stack)?;
        let origin = JoinedRow::empty();
        found.push(OutputRow { outputs, origin })?;
    }
    Ok(found)
}

// The groups of rows that stand for one row of the answer each.
fn groups_by<'a>(
    alloc: Global,
    scope: &Scope<'_>,
    columns: &[ColumnName],
    outputs: &[Output],
    rows: Vec<JoinedRow<'a>>,
) -> Result<Vec<Seq<JoinedRow<'a>>>, Refusal>
    ensures { Gives (λ found. found.items) result (groups_by scope.now columns.now outputs.now rows.entry.items) }
{
    if columns.is_empty() {
        single_group(alloc, outputs, rows)
    } else {
        let keyed = keyed_rows(alloc, scope, columns, rows)?;
        groups(alloc, keyed)
    }
}

fn single_group<'a>(
    alloc: Global,
    outputs: &[Output],
    rows: Vec<JoinedRow<'a>>,
) -> Result<Vec<Seq<JoinedRow<'a>>>, Refusal>
    ensures { Gives (λ found. found.items) result (Ok (single_group outputs.now rows.entry.items)) }
{
    let mut groups = Vec::new(alloc);
    if !rows.is_empty() || all_there_over_none(outputs) {
        groups.push(Seq::from(rows))?;
    }
    Ok(groups)
}

/// Whether each output has a value over no rows.
pub fn all_there_over_none(outputs: &[Output]) -> bool
    ensures { result ≡ list_all (λ (output : Output). is_there_over_none output.value) outputs.now }
{
    outputs
        .iter()
        .all(|output| is_there_over_none(&output.value))
}

fn bind_columns(
    alloc: Global,
    scope: &Scope<'_>,
    columns: &[ColumnName],
) -> Result<Vec<Source>, AllocError>
    ensures { IfOk result (λ sources. sources.items ≡ map (column_source scope.now) columns.now) }
{
    let mut sources = Vec::with_capacity(alloc, columns.len())?;
    for column in columns {
        sources.push(Source::column(scope, column))?;
    }
    Ok(sources)
}

fn keyed_rows<'a>(
    alloc: Global,
    scope: &Scope<'_>,
    columns: &[ColumnName],
    rows: Vec<JoinedRow<'a>>,
) -> Result<Vec<KeyedRow<'a>>, Refusal>
    ensures { Gives (λ keyed. keyed.items) result (each (keyed_row scope.now columns.now) rows.entry.items) }
{
    let columns = bind_columns(alloc, scope, columns)?;
    rows_by(alloc, &columns, rows)
}

// The rows beside their values in the columns.
fn rows_by<'a>(
    alloc: Global,
    columns: &[Source],
    rows: Vec<JoinedRow<'a>>,
) -> Result<Vec<KeyedRow<'a>>, Refusal>
    ensures { Gives (λ keyed. keyed.items) result (each (keyed_by (values_at columns.now)) rows.entry.items) }
{
    let mut keyed = Vec::with_capacity(alloc, rows.len())?;
    for row in rows {
        let key = values_at(alloc, columns, &row)?;
        keyed.push(KeyedRow { key, row })?;
    }
    Ok(keyed)
}

fn values_at(alloc: Global, columns: &[Source], row: &JoinedRow<'_>) -> Result<Row, Refusal>
    ensures { Gives (λ key. key) result (values_at columns.now row.now) }
{
    let mut values = Vec::with_capacity(alloc, columns.len())?;
    for column in columns {
        values.push(column.value(row)?.copy(alloc)?)?;
    }
    Ok(Seq::from(values))
}
