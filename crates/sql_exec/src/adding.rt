//! Aggregates over a table, added up while its rows are read.

ghost use Rattle.std.specs.Prelude.{◌≡◌, ◌++◌, ◌∷◌, [], IfErr, IfOk, List, is_some};
ghost use Rattle.heap_file.specs.declared.chain.Placed.{Placed};
ghost use Rattle.retro_base.specs.declared.refusal.Refusal.TheVariants.{OutOfMemory};
ghost use Rattle.pager.specs.Stop.{Answers};
ghost use Rattle.relation.specs.Catalog.{HaveFewColumns};
ghost use Rattle.sql_exec.specs.Adding.{GoesOn, added_or_not, comes_before, summed};
ghost use Rattle.sql_exec.specs.Promises.{KeepsReading};
ghost use Rattle.sql_exec.specs.Ranges.{plan_of};
ghost use Rattle.sql_exec.specs.declared.adding.Adding.{Adding};

use crate::ranges::plan;
use crate::source::schema_of;
use heap_file::Sieve;
use pager::{Pager, Stop};
use relation::{Catalog, Placed, StoredTable, show_rows};
use retro_base::Refusal;
use sql_check::answer_columns;
use sql_select::Answer;
use sql_totals::{Totals, is_of_one_group};
use sql_tree::{Scope, Select, TableSchema};
use std::alloc::{AllocError, Global};

/// Adds each row to the totals of a select, and passes none. It is of no use once a row was refused, or did not come in
/// rising number.
#[derive(Drop)]
struct Adding {
    alloc: Global,
    totals: Totals,
    last: Option<u64>,
    useful: bool,
}

impl Adding {
    // Adds a row; whether it came in its place and was not refused.
    fn takes(&mut self, placed: &Placed) -> Result<bool, Refusal>
        ensures takes { IfOk result (λ took. (start : Adding) (rows : List Placed) → GoesOn start rows self.old
            → added_or_not took start (rows ++ placed.now ∷ []) self.new) }
        ensures memory { IfErr result (λ why. why ≡ OutOfMemory) }
    {
        if comes_before(placed, self.last) {
            return Ok(false);
        }
        self.last = Some(placed.number);
        match self.totals.add(self.alloc, placed.row.as_slice()) {
            Ok(()) => Ok(true),
            Err(Refusal::OutOfMemory) => Err(Refusal::OutOfMemory),
            Err(_) => Ok(false),
        }
    }
}

// Whether a row has a number below the last.
fn comes_before(placed: &Placed, last: Option<u64>) -> bool
    ensures { result ≡ comes_before placed.now last }
{
    match last {
        Some(last) => placed.number < last,
        None => false,
    }
}

impl Sieve for Adding {
    ghost use Rattle.std.specs.Prelude.{Ok, false};
    ghost use Rattle.sql_exec.specs.Adding.{Added};

    ghost passes = { λ _ _. Ok false };

    ghost met = { Added };

    fn test(&mut self, placed: &Placed) -> Result<bool, Refusal> {
        if self.useful {
            self.useful = self.takes(placed)?;
        }
        Ok(false)
    }
}

/// The answer of a select that was checked against that catalog, where its aggregates can be added up as the rows of
/// its table are read: it has one table and no GROUP BY, its outputs are aggregates, no index has bounds for its rows,
/// and these come in rising number and are not refused. Else none, and only else.
pub(crate) fn summed<P: Pager>(
    alloc: Global,
    query: &Select,
    snapshot: Option<u32>,
    pager: &mut P,
    catalog: &Catalog,
) -> Result<Option<Answer>, Stop<P::Fault>>
    requires { HaveFewColumns catalog.now.tables }
    ensures answered { Answers (λ found. found) (P.tells pager.new)
        (summed (P.size pager.old) catalog.now query.now snapshot) result }
    ensures reads { KeepsReading P.tells P.goes P.size P.faults pager.old pager.new result }
{
    if !is_of_one_group(query) {
        return Ok(None);
    }
    let Some(table) = catalog.table(&query.table) else {
        return Ok(None);
    };
    let schema = schema_of(alloc, table)?;
    if has_plan(alloc, query, &schema, table)? {
        return Ok(None);
    }
    let scope = Scope::of_one(&schema);
    let Some(totals) = Totals::bind(alloc, query, &scope, snapshot)? else {
        return Ok(None);
    };
    let adding = Adding {
        alloc,
        totals,
        last: None,
        useful: true,
    };
    let added = show_rows(alloc, pager, table, adding)?;
    if !added.useful {
        return Ok(None);
    }
    let columns = answer_columns(alloc, &scope, &query.list)?;
    Ok(Some(added.totals.answer(alloc, query, &scope, columns)?))
}

// Whether an index has bounds for the rows of WHERE.
fn has_plan(
    alloc: Global,
    query: &Select,
    schema: &TableSchema,
    table: &StoredTable,
) -> Result<bool, AllocError>
    ensures { IfOk result (λ planned. planned ≡ is_some (plan_of schema.now table.now.indexes query.now.condition)) }
{
    match &query.condition {
        Some(condition) => Ok(plan(alloc, schema, table.indexes.as_slice(), condition)?.is_some()),
        None => Ok(false),
    }
}
