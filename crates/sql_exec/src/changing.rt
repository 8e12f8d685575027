//! Statements that change rows and take rows out.

ghost use Rattle.std.specs.Prelude.{◌≡◌, ◌∷◌, [], Ok};
ghost use Rattle.retro_base.specs.Gives.{Gives};
ghost use Rattle.sql_tree.specs.declared.statement.Statement.TheVariants as statement_of;
ghost use Rattle.sql_check.specs.Check.{checked};
ghost use Rattle.relation.specs.Catalog.{HaveFewColumns, schema_of};
ghost use Rattle.pager.specs.Stop.{Makes};
ghost use Rattle.sql_select.specs.Bound.{keeps};
ghost use Rattle.sql_select.specs.Rows.{holds_at};
ghost use Rattle.tables.specs.Bound.{assigns};
ghost use Rattle.sql_exec.specs.Bound.{placed_changes_by, placed_gone_by};
ghost use Rattle.sql_exec.specs.Planning.{picked};
ghost use Rattle.sql_exec.specs.Promises.{Keeps};
ghost use Rattle.sql_exec.specs.Running.{at_table, deleted_from, placed_changes, updated_in};

use crate::lengths::check_changes;
use crate::reading::{filter_of, read_rows};
use crate::source::schema_of;
use evaluation::{JoinedRow, Stack};
use pager::{EditPager, Stop};
use relation::{Catalog, Placed, RowChange, delete, update};
use retro_base::Refusal;
use sql_select::Filter;
use sql_tree::{Delete, TableSchema, Update};
use std::alloc::Global;
use tables::{BoundAssignments, Reply};
use tree_index::TreeIndex;

/// Takes the rows of a table out for which the condition holds.
pub fn delete_rows<P: EditPager>(
    alloc: Global,
    query: &Delete,
    pager: &mut P,
    snapshot: Option<u32>,
    catalog: &Catalog,
) -> Result<Reply, Stop<P::Fault>>
    ensures deleted { Makes (λ reply. reply) (P.tells pager.old) (P.tells pager.new)
        (λ pages. at_table catalog.now query.now.table
        (λ table. deleted_from (P.size pager.old) snapshot query.now table pages)) result }
    ensures keeps { Keeps P.goes P.size P.faults pager.old pager.new result }
{
    let Some(table) = catalog.table(&query.table) else {
        return Err(Stop::Refused(Refusal::UnknownName));
    };
    let schema = schema_of(alloc, table)?;
    let filter = filter_of(alloc, &schema, snapshot, &query.condition)?;
    let rows = read_rows(alloc, pager, table, &schema, &filter, &query.condition)?;
    let gone = gone_by(alloc, &filter, rows)?;
    delete::<TreeIndex, P>(alloc, pager, table, &gone)?;
    Ok(Reply::Count(gone.len() as u64))
}

// The rows that the filter keeps.
fn gone_by(alloc: Global, filter: &Filter, rows: Vec<Placed>) -> Result<Vec<Placed>, Refusal>
    ensures { Gives (λ gone. gone.items) result (picked (placed_gone_by (keeps filter.now)) rows.items) }
{
    let mut stack = Stack::new(alloc);
    let mut gone = Vec::new(alloc);
    for placed in rows {
        if filter.keeps(&JoinedRow::of_one(placed.row.as_slice()), &mut stack)? {
            gone.push(placed)?;
        }
    }
    Ok(gone)
}

/// Changes the rows of a table for which the condition holds.
pub fn update_rows<P: EditPager>(
    alloc: Global,
    query: &Update,
    pager: &mut P,
    snapshot: Option<u32>,
    catalog: &Catalog,
) -> Result<Reply, Stop<P::Fault>>
    requires few { HaveFewColumns catalog.now.tables }
    requires checked { checked (statement_of.Update query.now) snapshot (schema_of catalog.now) ≡ Ok tt }
    ensures updated { Makes (λ reply. reply) (P.tells pager.old) (P.tells pager.new)
        (λ pages. at_table catalog.now query.now.table
        (λ table. updated_in (P.size pager.old) snapshot query.now table pages)) result }
    ensures keeps { Keeps P.goes P.size P.faults pager.old pager.new result }
{
    let Some(table) = catalog.table(&query.table) else {
        return Err(Stop::Refused(Refusal::UnknownName));
    };
    let schema = schema_of(alloc, table)?;
    let filter = filter_of(alloc, &schema, snapshot, &query.condition)?;
    let rows = read_rows(alloc, pager, table, &schema, &filter, &query.condition)?;
    let changes = changes_of(alloc, &schema, snapshot, query, &filter, rows)?;
    check_changes(&changes)?;
    let count = changes.len() as u64;
    update::<TreeIndex, P>(alloc, pager, table, changes)?;
    Ok(Reply::Count(count))
}

// The rows that the filter keeps, and what they become with their values set.
fn changes_of(
    alloc: Global,
    table: &TableSchema,
    snapshot: Option<u32>,
    query: &Update,
    filter: &Filter,
    rows: Vec<Placed>,
) -> Result<Vec<RowChange>, Refusal>
    requires { keeps filter.now ≡ holds_at (table.now ∷ []) snapshot query.now.condition }
    ensures { Gives (λ changes. changes.items) result
        (picked (placed_changes table.now snapshot query.now) rows.items) }
{
    let assignments = query.assignments.as_slice();
    let assignments = BoundAssignments::bind(alloc, table, snapshot, assignments)?;
    changes_by(alloc, filter, &assignments, rows)
}

fn changes_by(
    alloc: Global,
    filter: &Filter,
    assignments: &BoundAssignments,
    rows: Vec<Placed>,
) -> Result<Vec<RowChange>, Refusal>
    ensures { Gives (λ changes. changes.items) result
        (picked (placed_changes_by (keeps filter.now) (assigns assignments.now)) rows.items) }
{
    let mut truths = Stack::new(alloc);
    let mut values = Stack::new(alloc);
    let mut changes = Vec::new(alloc);
    for was in rows {
        if filter.keeps(&JoinedRow::of_one(was.row.as_slice()), &mut truths)? {
            let row = assignments.assigned(alloc, &was.row, &mut values)?;
            changes.push(RowChange { was, row })?;
        }
    }
    Ok(changes)
}
