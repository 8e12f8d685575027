//! The rows of a table that a statement reads: those in a range of an index, or all, but none at which WHERE is false.

ghost use Rattle.std.specs.Prelude.{◌≡◌, ◌∷◌, [], ℕ, IfOk, Option};
ghost use Rattle.pager.specs.Stop.{Answers, OnlyReads};
ghost use Rattle.relation.specs.Work.{AllPlacedFit};
ghost use Rattle.sql_select.specs.Bound.{keeps};
ghost use Rattle.sql_select.specs.Rows.{holds_at};
ghost use Rattle.sql_exec.specs.Bound.{left_at};
ghost use Rattle.sql_exec.specs.Reading.{schema_at};

use crate::ranges::{Range, plan};
use evaluation::{JoinedRow, Stack};
use heap_file::Sieve;
use pager::{Pager, Stop};
use relation::{Placed, StoredTable, ranged_by, rows, rows_by};
use retro_base::Refusal;
use sql_select::Filter;
use sql_tree::{Condition, Scope, TableSchema};
use std::alloc::{AllocError, Global};
use tree_index::TreeIndex;

/// WHERE as a test of the rows of one table. A row at which it is refused passes, so that the statement is refused at it
/// in its turn.
#[derive(Drop)]
struct Where<'a> {
    filter: &'a Filter,
    stack: Stack<bool>,
}

impl Sieve for Where<'_> {
    ghost use Rattle.sql_select.specs.Bound.{keeps};
    ghost use Rattle.sql_exec.specs.Bound.{passes_by};

    ghost passes = { λ s. passes_by (keeps s.filter.now) };

    ghost met = { λ _ _ _. Unit {0} };

    fn test(&mut self, placed: &Placed) -> Result<bool, Refusal> {
        let row = JoinedRow::of_one(placed.row.as_slice());
        match self.filter.keeps(&row, &mut self.stack) {
            Ok(keeps) => Ok(keeps),
            Err(Refusal::OutOfMemory) => Err(Refusal::OutOfMemory),
            Err(_) => Ok(true),
        }
    }
}

/// WHERE over the columns of one table; `snapshot` is the number of `current_snapshot()`.
pub(crate) fn filter_of(
    alloc: Global,
    table: &TableSchema,
    snapshot: Option<u32>,
    condition: &Option<Condition>,
) -> Result<Filter, AllocError>
    ensures { IfOk result (λ filter. keeps filter ≡ holds_at (table.now ∷ []) snapshot condition.now) }
{
    Filter::bind(alloc, &Scope::of_one(table), snapshot, condition)
}

/// The rows of a table, in rising number, each with the page where it stands: all of them, or where the condition sets
/// bounds to the column of an index, those that the index lists within the bounds; but none at which the condition is
/// false. Those at which it is refused are among them. `filter` is the condition with its names bound.
pub(crate) fn read_rows<P: Pager>(
    alloc: Global,
    pager: &mut P,
    table: &StoredTable,
    schema: &TableSchema,
    filter: &Filter,
    condition: &Option<Condition>,
) -> Result<Vec<Placed>, Stop<P::Fault>>
    requires { schema.now ≡ schema_at table.now }
    ensures rows { (snapshot : Option ℕ) → keeps filter.now ≡ holds_at (schema.now ∷ []) snapshot condition.now
        → Answers (λ rows. rows.items) (P.tells pager.new)
        (λ pages. left_at (P.size pager.old) snapshot pages table.now condition.now) result }
    ensures fitting { IfOk result (λ rows. AllPlacedFit table.now.columns rows.items) }
    ensures only_reads { OnlyReads P.tells P.goes P.size P.faults pager.old pager.new result }
{
    let Some(condition) = condition else {
        return rows(alloc, pager, table);
    };
    let stack = Stack::new(alloc);
    let sieve = Where { filter, stack };
    match plan(alloc, schema, table.indexes.as_slice(), condition)? {
        Some(range) => {
            let Range { index, low, high } = range;
            ranged_by::<TreeIndex, Where<'_>, P>(alloc, pager, table, &index, &low, &high, sieve)
        }
        None => rows_by(alloc, pager, table, sieve),
    }
}
