//! The tables that a select reads.

ghost use Rattle.std.specs.Prelude.{◌≡◌, ◌≤◌, map, length, IfOk};
ghost use Rattle.retro_base.specs.declared.limits.TheConstants.{COLUMNS};
ghost use Rattle.pager.specs.Stop.{Answers};
ghost use Rattle.heap_file.specs.declared.chain.Placed.{Placed as PlacedOf};
ghost use Rattle.relation.specs.Catalog.{HaveFewColumns, table_named};
ghost use Rattle.sql_exec.specs.Bound.{source_left};
ghost use Rattle.sql_exec.specs.Promises.{KeepsReading};

use crate::reading::{filter_of, read_rows};
use pager::{Pager, Stop};
use relation::{Catalog, Placed, StoredTable};
use retro_base::Refusal;
use sql_tree::{Condition, TableSchema};
use std::alloc::{AllocError, Global};
use values::{Duplicate, Name, Row, Seq};

/// The columns of a table, and its rows.
#[derive(Drop)]
pub struct Source {
    pub schema: TableSchema,
    pub rows: Seq<Row>,
}

/// The columns of the table of that name, and the rows of it that are read where WHERE is this, but those at which it
/// is false.
pub fn read_table<P: Pager>(
    alloc: Global,
    pager: &mut P,
    catalog: &Catalog,
    name: &Name,
    snapshot: Option<u32>,
    condition: &Option<Condition>,
) -> Result<Source, Stop<P::Fault>>
    requires { HaveFewColumns catalog.now.tables }
    ensures source { Answers (λ source. source) (P.tells pager.new)
        (λ pages. source_left (P.size pager.old) snapshot pages (table_named name.now catalog.now.tables)
        condition.now) result }
    ensures few { IfOk result (λ source. length source.schema.columns ≤ COLUMNS) }
    ensures reads { KeepsReading P.tells P.goes P.size P.faults pager.old pager.new result }
{
    let Some(table) = catalog.table(name) else {
        return Err(Stop::Refused(Refusal::UnknownName));
    };
    let schema = schema_of(alloc, table)?;
    let filter = filter_of(alloc, &schema, snapshot, condition)?;
    let rows = read_rows(alloc, pager, table, &schema, &filter, condition)?;
    let rows = without_numbers(alloc, rows)?;
    Ok(Source { schema, rows })
}

/// The name and the columns of a table.
pub fn schema_of(alloc: Global, table: &StoredTable) -> Result<TableSchema, AllocError>
    ensures { IfOk result (λ schema. schema ≡ record { name = table.now.name; columns = table.now.columns }) }
{
    Ok(TableSchema {
        name: table.name.copy(alloc)?,
        columns: table.columns.copy(alloc)?,
    })
}

// The rows alone.
fn without_numbers(alloc: Global, rows: Vec<Placed>) -> Result<Seq<Row>, AllocError>
    ensures { IfOk result (λ all. all ≡ map (λ (placed : PlacedOf). placed.row) rows.items) }
{
    let mut all = Vec::with_capacity(alloc, rows.len())?;
    for placed in rows {
        all.push(placed.row)?;
    }
    Ok(Seq::from(all))
}
