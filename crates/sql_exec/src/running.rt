//! Statements.

ghost use Rattle.std.specs.Prelude.{◌≡◌, Ok};
ghost use Rattle.pager.specs.Stop.{Makes};
ghost use Rattle.relation.specs.Catalog.{HaveFewColumns, schema_of};
ghost use Rattle.sql_check.specs.Check.{checked};
ghost use Rattle.sql_tree.specs.Statement.{IsStatement};
ghost use Rattle.sql_exec.specs.Promises.{Keeps, Runs};
ghost use Rattle.sql_exec.specs.Running.{done_on};

use crate::asking::answer;
use crate::changing::{delete_rows, update_rows};
use crate::making::{insert_tuples, make_index, make_table};
use pager::{EditPager, Stop};
use relation::{Catalog, open};
use sql_check::check;
use sql_tree::Statement;
use std::alloc::Global;
use tables::Reply;

/// Does the statement to the tables of the pages, and replies. `snapshot` is the number of `current_snapshot()`, where
/// there is one. Refused before the first edit.
pub fn run<P: EditPager>(
    alloc: Global,
    statement: &Statement,
    pager: &mut P,
    snapshot: Option<u32>,
) -> Result<Reply, Stop<P::Fault>>
    requires is_statement { IsStatement statement.now }
    ensures runs { Runs (P.size pager.old) statement.now snapshot (P.tells pager.old) (P.tells pager.new) result }
    ensures keeps { Keeps P.goes P.size P.faults pager.old pager.new result }
{
    let catalog = open(alloc, pager)?;
    let schema = catalog.schema(alloc)?;
    check(statement, snapshot, &schema)?;
    perform(alloc, statement, pager, snapshot, &catalog)
}

// Does a statement that was checked against that catalog.
fn perform<P: EditPager>(
    alloc: Global,
    statement: &Statement,
    pager: &mut P,
    snapshot: Option<u32>,
    catalog: &Catalog,
) -> Result<Reply, Stop<P::Fault>>
    requires is_statement { IsStatement statement.now }
    requires few { HaveFewColumns catalog.now.tables }
    requires checked { checked statement.now snapshot (schema_of catalog.now) ≡ Ok tt }
    ensures done { Makes (λ reply. reply) (P.tells pager.old) (P.tells pager.new)
        (done_on (P.size pager.old) catalog.now statement.now snapshot) result }
    ensures keeps { Keeps P.goes P.size P.faults pager.old pager.new result }
{
    match statement {
        Statement::CreateTable(create) => make_table(alloc, create, pager),
        Statement::CreateIndex(create) => make_index(alloc, create, pager, catalog),
        Statement::Insert(insert) => insert_tuples(alloc, insert, pager, catalog),
        Statement::Update(update) => update_rows(alloc, update, pager, snapshot, catalog),
        Statement::Delete(delete) => delete_rows(alloc, delete, pager, snapshot, catalog),
        Statement::Select(select) => {
            let answer = answer(alloc, select, snapshot, pager, catalog)?;
            Ok(Reply::Rows(answer))
        }
    }
}
