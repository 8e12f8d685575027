//! Statements that make tables, indexes and rows.

ghost use Rattle.std.specs.Prelude.{◌≡◌, ◌≤◌, List, Ok, None, length};
ghost use Rattle.std.specs.List.{AllByRecursion};
ghost use Rattle.retro_base.specs.declared.limits.TheConstants.{COLUMNS};
ghost use Rattle.values.specs.declared.value.Value.{Value as ValueOf};
ghost use Rattle.sql_tree.specs.declared.statement.Statement.TheVariants as statement_of;
ghost use Rattle.sql_check.specs.Check.{checked};
ghost use Rattle.pager.specs.Stop.{Makes};
ghost use Rattle.relation.specs.Catalog.{HaveFewColumns, schema_of};
ghost use Rattle.sql_exec.specs.Promises.{Keeps};
ghost use Rattle.sql_exec.specs.Running.{AreNames, at_table, inserted_into, made_index, made_table};

use crate::lengths::check_lengths;
use pager::{EditPager, Stop};
use relation::{Catalog, create_index, create_table, insert, next_number};
use retro_base::Refusal;
use sql_tree::{CreateIndex, CreateTable, Insert, column_place};
use std::alloc::Global;
use tables::Reply;
use tree_index::TreeIndex;

/// Makes a table without rows.
pub fn make_table<P: EditPager>(
    alloc: Global,
    create: &CreateTable,
    pager: &mut P,
) -> Result<Reply, Stop<P::Fault>>
    requires { length create.now.columns ≤ COLUMNS }
    ensures made { Makes (λ reply. reply) (P.tells pager.old) (P.tells pager.new)
        (made_table (P.size pager.old) create.now) result }
    ensures keeps { Keeps P.goes P.size P.faults pager.old pager.new result }
{
    read_names(create);
    create_table(alloc, pager, &create.table, create.columns.as_slice())?;
    Ok(Reply::Plain)
}

// The names of a table and its columns are names.
fn read_names(create: &CreateTable)
    ensures { AreNames create.now }
{
    let _name = create.table.bytes();
    for column in create.columns.as_slice() {
        let _name = column.name.bytes();
    }
}

/// Makes an index over a column of a table.
pub fn make_index<P: EditPager>(
    alloc: Global,
    create: &CreateIndex,
    pager: &mut P,
    catalog: &Catalog,
) -> Result<Reply, Stop<P::Fault>>
    requires { HaveFewColumns catalog.now.tables }
    ensures made { Makes (λ reply. reply) (P.tells pager.old) (P.tells pager.new)
        (λ pages. at_table catalog.now create.now.table
        (λ table. made_index (P.size pager.old) create.now table pages)) result }
    ensures keeps { Keeps P.goes P.size P.faults pager.old pager.new result }
{
    let Some(table) = catalog.table(&create.table) else {
        return Err(Stop::Refused(Refusal::UnknownName));
    };
    let Some(place) = column_place(&create.column, table.columns.as_slice()) else {
        return Err(Stop::Refused(Refusal::UnknownName));
    };
    // The index's name is a name.
    let _name = create.index.bytes();
    create_index::<TreeIndex, P>(alloc, pager, &create.index, table, place as u32)?;
    Ok(Reply::Plain)
}

/// Adds tuples at the end of a table, under the next row numbers.
pub fn insert_tuples<P: EditPager>(
    alloc: Global,
    query: &Insert,
    pager: &mut P,
    catalog: &Catalog,
) -> Result<Reply, Stop<P::Fault>>
    requires few { HaveFewColumns catalog.now.tables }
    requires some { AllByRecursion (λ (tuple : List ValueOf). 1 ≤ length tuple) query.now.tuples }
    requires checked { checked (statement_of.Insert query.now) None (schema_of catalog.now) ≡ Ok tt }
    ensures inserted { Makes (λ reply. reply) (P.tells pager.old) (P.tells pager.new)
        (λ pages. at_table catalog.now query.now.table
        (λ table. inserted_into (P.size pager.old) query.now.tuples table pages)) result }
    ensures keeps { Keeps P.goes P.size P.faults pager.old pager.new result }
{
    let Some(table) = catalog.table(&query.table) else {
        return Err(Stop::Refused(Refusal::UnknownName));
    };
    let tuples = query.tuples.as_slice();
    let count = tuples.len() as u64;
    let next = next_number(alloc, pager, table)?;
    if next > u64::MAX - count {
        return Err(Stop::Refused(Refusal::Overflow));
    }
    check_lengths(tuples)?;
    insert::<TreeIndex, P>(alloc, pager, table, tuples)?;
    Ok(Reply::Count(count))
}
