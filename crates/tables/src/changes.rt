//! What UPDATE and DELETE make of a table's rows.

ghost use Rattle.std.specs.Prelude.{◌≡◌, ◌∷◌, [], false, IfOk, length};
ghost use Rattle.retro_base.specs.Gives.{Gives};
ghost use Rattle.sql_check.specs.Check.{update_has_unknown, update_is_mistyped};
ghost use Rattle.sql_select.specs.Bound.{keeps};
ghost use Rattle.tables.specs.Bound.{assigns, remaining_by, updated_by};
ghost use Rattle.tables.specs.Fates.{contents_after, counts, rewritten};
ghost use Rattle.tables.specs.Meaning.{remaining, reworked, updated, updated_row};
ghost use Rattle.tables.specs.Tables.{IsTable};

use crate::assigning::BoundAssignments;
use crate::contents::{Contents, NumberedRow};
use crate::fates::{Fate, Fates};
use crate::lengths::check_becoming;
use evaluation::{JoinedRow, Stack};
use retro_base::Refusal;
use sql_select::Filter;
use sql_tree::{Delete, Scope, TableSchema, Update};
use std::alloc::Global;
use values::Value;

// What an update makes of a row.
fn update_of(
    alloc: Global,
    filter: &Filter,
    assignments: &BoundAssignments,
    row: &NumberedRow,
    truths: &mut Stack<bool>,
    values: &mut Stack<Value>,
) -> Result<Fate, Refusal>
    ensures { Gives (λ fate. (rewritten (fate ∷ []) (row.now ∷ []), counts fate)) result
        (updated_by (keeps filter.now) (assigns assignments.now) row.now) }
{
    if filter.keeps(&JoinedRow::of_one(row.row.as_slice()), truths)? {
        Ok(Fate::Becomes(assignments.assigned(alloc, &row.row, values)?))
    } else {
        Ok(Fate::Stays)
    }
}

// What a delete leaves of a row.
fn delete_of(filter: &Filter, row: &NumberedRow, truths: &mut Stack<bool>) -> Result<Fate, Refusal>
    ensures { Gives (λ fate. (rewritten (fate ∷ []) (row.now ∷ []), counts fate)) result
        (remaining_by (keeps filter.now) row.now) }
{
    if filter.keeps(&JoinedRow::of_one(row.row.as_slice()), truths)? {
        Ok(Fate::Goes)
    } else {
        Ok(Fate::Stays)
    }
}

fn updated_rows(
    alloc: Global,
    filter: &Filter,
    assignments: &BoundAssignments,
    rows: &[NumberedRow],
) -> Result<Fates, Refusal>
    ensures made { Gives (λ fates. (rewritten fates.each rows.now, fates.count)) result
        (reworked (updated_by (keeps filter.now) (assigns assignments.now)) rows.now) }
    ensures each { IfOk result (λ fates. length fates.each ≡ length rows.now) }
{
    let mut fates = Fates::new(alloc);
    let mut truths = Stack::new(alloc);
    let mut values = Stack::new(alloc);
    for row in rows {
        let fate = update_of(alloc, filter, assignments, row, &mut truths, &mut values)?;
        fates.push(fate)?;
    }
    Ok(fates)
}

fn remaining_rows(alloc: Global, filter: &Filter, rows: &[NumberedRow]) -> Result<Fates, Refusal>
    ensures made { Gives (λ fates. (rewritten fates.each rows.now, fates.count)) result
        (reworked (remaining_by (keeps filter.now)) rows.now) }
    ensures each { IfOk result (λ fates. length fates.each ≡ length rows.now) }
{
    let mut fates = Fates::new(alloc);
    let mut truths = Stack::new(alloc);
    for row in rows {
        fates.push(delete_of(filter, row, &mut truths)?)?;
    }
    Ok(fates)
}

// The same, by a statement's own words.
fn updates(
    alloc: Global,
    table: &TableSchema,
    snapshot: Option<u32>,
    update: &Update,
    rows: &[NumberedRow],
) -> Result<Fates, Refusal>
    ensures made { Gives (λ fates. (rewritten fates.each rows.now, fates.count)) result
        (reworked (updated_row table.now snapshot update.now) rows.now) }
    ensures each { IfOk result (λ fates. length fates.each ≡ length rows.now) }
{
    let assignments = update.assignments.as_slice();
    let assignments = BoundAssignments::bind(alloc, table, snapshot, assignments)?;
    let filter = Filter::bind(alloc, &Scope::of_one(table), snapshot, &update.condition)?;
    updated_rows(alloc, &filter, &assignments, rows)
}

/// What an update that was checked makes of the rows of a table.
pub fn updated(
    alloc: Global,
    table: &TableSchema,
    snapshot: Option<u32>,
    update: &Update,
    contents: &Contents,
) -> Result<Fates, Refusal>
    requires table { IsTable table.now contents.now }
    requires known { update_has_unknown snapshot update.now table.now ≡ false }
    requires typed { update_is_mistyped update.now table.now ≡ false }
    ensures made { Gives (λ fates. (contents_after fates.each contents.now, fates.count)) result
        (updated snapshot update.now table.now contents.now) }
    ensures each { IfOk result (λ fates. length fates.each ≡ length contents.now.rows) }
{
    let fates = updates(alloc, table, snapshot, update, contents.rows.as_slice())?;
    check_becoming(fates.each.as_slice())?;
    Ok(fates)
}

/// What a delete makes of the rows of a table.
pub fn remaining(
    alloc: Global,
    table: &TableSchema,
    snapshot: Option<u32>,
    delete: &Delete,
    contents: &Contents,
) -> Result<Fates, Refusal>
    ensures made { Gives (λ fates. (contents_after fates.each contents.now, fates.count)) result
        (remaining snapshot delete.now table.now contents.now) }
    ensures each { IfOk result (λ fates. length fates.each ≡ length contents.now.rows) }
{
    let filter = Filter::bind(alloc, &Scope::of_one(table), snapshot, &delete.condition)?;
    remaining_rows(alloc, &filter, contents.rows.as_slice())
}
