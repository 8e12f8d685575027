//! Selects alone.

ghost use Rattle.retro_base.specs.Gives.{Gives};
ghost use Rattle.std.specs.Prelude.{◌≡◌, ◌≤◌, None, length};
ghost use Rattle.retro_base.specs.declared.limits.TheConstants.{COLUMNS};
ghost use Rattle.pager.specs.Stop.{Answers};
ghost use Rattle.relation.specs.Catalog.{HaveFewColumns};
ghost use Rattle.sql_exec.specs.Asking.{answered, over_one, over_two, where_alone};
ghost use Rattle.sql_exec.specs.Promises.{Asks, KeepsReading};

use crate::adding::summed;
use crate::source::{Source, read_table};
use pager::{Pager, Stop};
use relation::{Catalog, open};
use retro_base::Refusal;
use sql_check::{answer_columns, check_select};
use sql_select::{Answer, select};
use sql_tree::{Condition, Scope, Select};
use std::alloc::Global;

/// The answer of a select over the tables of the pages. `snapshot` is the number of `current_snapshot()`, where there
/// is one.
pub fn ask<P: Pager>(
    alloc: Global,
    query: &Select,
    pager: &mut P,
    snapshot: Option<u32>,
) -> Result<Answer, Stop<P::Fault>>
    ensures asks { Asks (P.size pager.old) query.now snapshot (P.tells pager.new) result }
    ensures reads { KeepsReading P.tells P.goes P.size P.faults pager.old pager.new result }
{
    let catalog = open(alloc, pager)?;
    let schema = catalog.schema(alloc)?;
    check_select(query, snapshot, &schema)?;
    answer(alloc, query, snapshot, pager, &catalog)
}

/// The answer of a select that was checked against that catalog.
pub fn answer<P: Pager>(
    alloc: Global,
    query: &Select,
    snapshot: Option<u32>,
    pager: &mut P,
    catalog: &Catalog,
) -> Result<Answer, Stop<P::Fault>>
    requires { HaveFewColumns catalog.now.tables }
    ensures answered { Answers (λ answer. answer) (P.tells pager.new)
        (answered (P.size pager.old) catalog.now query.now snapshot) result }
    ensures reads { KeepsReading P.tells P.goes P.size P.faults pager.old pager.new result }
{
    if let Some(answer) = summed(alloc, query, snapshot, pager, catalog)? {
        return Ok(answer);
    }
    answer_of_rows(alloc, query, snapshot, pager, catalog)
}

// The answer of a select that was checked against that catalog, over the rows that it keeps.
fn answer_of_rows<P: Pager>(
    alloc: Global,
    query: &Select,
    snapshot: Option<u32>,
    pager: &mut P,
    catalog: &Catalog,
) -> Result<Answer, Stop<P::Fault>>
    requires { HaveFewColumns catalog.now.tables }
    ensures answered { Answers (λ answer. answer) (P.tells pager.new)
        (answered (P.size pager.old) catalog.now query.now snapshot) result }
    ensures reads { KeepsReading P.tells P.goes P.size P.faults pager.old pager.new result }
{
    let all = None;
    let condition = where_alone(query, &all);
    let first = read_table(alloc, pager, catalog, &query.table, snapshot, condition)?;
    match &query.second {
        None => Ok(over_one(alloc, query, snapshot, &first)?),
        Some(name) => {
            let second = read_table(alloc, pager, catalog, name, snapshot, &all)?;
            Ok(over_two(alloc, query, snapshot, &first, &second)?)
        }
    }
}

// WHERE, where it speaks of one table alone; else that of all rows.
fn where_alone<'a>(query: &'a Select, all: &'a Option<Condition>) -> &'a Option<Condition>
    requires { all.now ≡ None }
    ensures { result.now ≡ where_alone query.now }
{
    match &query.second {
        None => &query.condition,
        Some(_) => all,
    }
}

// The answer over the rows of one table.
fn over_one(
    alloc: Global,
    query: &Select,
    snapshot: Option<u32>,
    first: &Source,
) -> Result<Answer, Refusal>
    ensures { Gives (λ answer. answer) result (over_one query.now snapshot first.now) }
{
    let scope = Scope::of_one(&first.schema);
    let columns = answer_columns(alloc, &scope, &query.list)?;
    let rows = first.rows.as_slice();
    select(alloc, query, &scope, columns, snapshot, rows, None)
}

// The answer over the rows of two tables.
fn over_two(
    alloc: Global,
    query: &Select,
    snapshot: Option<u32>,
    first: &Source,
    second: &Source,
) -> Result<Answer, Refusal>
    requires few_first { length first.now.schema.columns ≤ COLUMNS }
    requires few_second { length second.now.schema.columns ≤ COLUMNS }
    ensures { Gives (λ answer. answer) result (over_two query.now snapshot first.now second.now) }
{
    let scope = Scope::of_two(&first.schema, &second.schema);
    let columns = answer_columns(alloc, &scope, &query.list)?;
    let rows = first.rows.as_slice();
    let others = second.rows.as_slice();
    select(alloc, query, &scope, columns, snapshot, rows, Some(others))
}
