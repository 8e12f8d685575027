//! Queries of tables beside those of the store.

ghost use Rattle.retro_base.specs.Gives.{Gives};
ghost use Rattle.session.specs.Held.{held};
ghost use Rattle.session.specs.OverSnapshots.{asked_of, results_asked};

use crate::result_table::ResultTables;
use retro_base::Refusal;
use sql_check::{answer_columns, check_beside};
use sql_select::{Answer, select};
use sql_tree::{Scope, Select, TableSchema};
use std::alloc::Global;
use values::{Duplicate, Row};

/// The answer of a select over this one table, which may have any number of columns.
pub fn asked_of(
    alloc: Global,
    query: &Select,
    table: &TableSchema,
    rows: &[Row],
) -> Result<Answer, Refusal>
    ensures { Gives (λ answer. answer) result (asked_of query.now table.now rows.now) }
{
    check_beside(query, table)?;
    let scope = Scope::of_one(table);
    let columns = answer_columns(alloc, &scope, &query.list)?;
    select(alloc, query, &scope, columns, None, rows, None)
}

// The answer of a query of the result table of the name that it asks for.
fn kept_asked(alloc: Global, query: &Select, answer: &Answer) -> Result<Answer, Refusal>
    ensures { Gives (λ answer. answer) result
        (asked_of query.now (record { name = query.now.table; columns = answer.now.columns }) answer.now.rows) }
{
    let name = query.table.copy(alloc)?;
    let columns = answer.columns.copy(alloc)?;
    let table = TableSchema { name, columns };
    asked_of(alloc, query, &table, answer.rows.as_slice())
}

/// The answer of a query of the result table of its name among these.
pub fn results_asked(
    alloc: Global,
    query: &Select,
    tables: &ResultTables,
) -> Result<Answer, Refusal>
    ensures { Gives (λ answer. answer) result (results_asked query.now (held tables.now)) }
{
    match tables.get(&query.table) {
        Some(answer) => kept_asked(alloc, query, answer),
        None => Err(Refusal::UnknownName),
    }
}
