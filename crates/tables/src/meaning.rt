//! What statements do.

ghost use Rattle.std.specs.Prelude.{◌≡◌, OnErr};
ghost use Rattle.sql_tree.specs.Statement.{IsStatement};
ghost use Rattle.retro_base.specs.Gives.{Gives};
ghost use Rattle.tables.specs.Meaning.{asked, does};

use crate::reply::Reply;
use crate::tables::Tables;
use retro_base::Refusal;
use sql_check::{check, check_select};
use sql_select::Answer;
use sql_tree::{Select, Statement};
use std::alloc::Global;

/// Does the statement: changes the tables as it says, and replies. `snapshot` is the number of `current_snapshot()`,
/// where there is one. After a refusal the tables are as before.
pub fn does(
    alloc: Global,
    statement: &Statement,
    snapshot: Option<u32>,
    tables: &mut Tables,
) -> Result<Reply, Refusal>
    requires { IsStatement statement.now }
    ensures means { Gives (λ reply. (tables.new, reply)) result (does statement.now snapshot tables.old) }
    ensures refused { OnErr result (tables.new ≡ tables.old) }
{
    check(statement, snapshot, tables.schema())?;
    match statement {
        Statement::CreateTable(create) => tables.create_table(alloc, create),
        Statement::CreateIndex(create) => tables.create_index(alloc, create),
        Statement::Insert(insert) => tables.insert(alloc, insert),
        Statement::Update(update) => tables.update(alloc, snapshot, update),
        Statement::Delete(delete) => tables.delete(alloc, snapshot, delete),
        Statement::Select(select) => Ok(Reply::Rows(tables.answer(alloc, select, snapshot)?)),
    }
}

/// The answer of a select. `snapshot` is the number of `current_snapshot()`, where there is one.
pub fn ask(
    alloc: Global,
    select: &Select,
    snapshot: Option<u32>,
    tables: &Tables,
) -> Result<Answer, Refusal>
    ensures { Gives (λ answer. answer) result (asked select.now snapshot tables.now) }
{
    check_select(select, snapshot, tables.schema())?;
    tables.answer(alloc, select, snapshot)
}
