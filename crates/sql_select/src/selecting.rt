//! The answer of a select.

ghost use Rattle.std.specs.Prelude.{◌≡◌, map, OnOk, IfOk, IfErr, not, ◌||◌};
ghost use Rattle.std.specs.Option.{option_copied, option_map};
ghost use Rattle.retro_base.specs.Gives.{Gives};
ghost use Rattle.retro_base.specs.declared.refusal.Refusal.TheVariants.{OutOfMemory};
ghost use Rattle.sql_select.specs.Each.{each};
ghost use Rattle.sql_select.specs.Order.{sorted_by};
ghost use Rattle.sql_select.specs.Rows.{holds_at, joined_rows, kept};
ghost use Rattle.sql_select.specs.Select.{answer, answer_of, finished, key_place, limited, output_place};
ghost use Rattle.sql_select.specs.Select.{outputs_of, sort_key};

use crate::answer::Answer;
use crate::filter::Filter;
use crate::grouping::distinct;
use crate::joining::{HasRow, keep_of_one, keep_of_two};
use crate::ordering::{KeyPlace, SortKey, first_few, sort};
use crate::output_row::OutputRow;
use crate::output_rows::output_rows;
use evaluation::JoinedRow;
use retro_base::Refusal;
use sql_tree::{Column, ColumnName, Condition, OrderKey, Scope, Select, column_place};
use std::alloc::Global;
use values::{Row, Seq};

// The most rows of a LIMIT that are put in order one by one.
const FEW: u64 = 16;

/// The answer of a select, with these columns, over the rows of its first table and, where it has one, of its second.
/// `scope` tells the tables' columns, `columns` the answer's, and `snapshot` is the number of `current_snapshot()`.
/// A checked select is refused for want of memory, or by Overflow where a number that it works out at a kept row, or
/// the end of a SUM, is outside i64. What the check refuses is refused here where a row or a key shows it.
pub fn select<R: HasRow>(
    alloc: Global,
    select: &Select,
    scope: &Scope<'_>,
    columns: Seq<Column>,
    snapshot: Option<u32>,
    firsts: &[R],
    seconds: Option<&[R]>,
) -> Result<Answer, Refusal>
    ensures { Gives (λ answer. answer) result (answer select.now scope.now columns snapshot (map R.row_of firsts.now)
        (option_map (map R.row_of) (option_copied seconds.entry))) }
{
    let rows = kept_rows(alloc, &select.condition, scope, snapshot, firsts, seconds)?;
    let found = output_rows(alloc, scope, snapshot, select, rows)?;
    answer_of(alloc, select, scope, columns, found)
}

/// The answer whose rows, before DISTINCT, ORDER BY and LIMIT, are these.
pub fn answer_of(
    alloc: Global,
    select: &Select,
    scope: &Scope<'_>,
    columns: Seq<Column>,
    found: Vec<OutputRow<'_>>,
) -> Result<Answer, Refusal>
    ensures { Gives (λ answer. answer) result (answer_of select.now scope.now columns found.entry.items) }
{
    let keys = sort_keys(alloc, select, scope, columns.as_slice())?;
    let rows = finish(alloc, select, &keys, found)?;
    Ok(Answer { columns, rows })
}

// The joined rows that WHERE keeps.
fn kept_rows<'a, R: HasRow>(
    alloc: Global,
    condition: &Option<Condition>,
    scope: &Scope<'_>,
    snapshot: Option<u32>,
    firsts: &'a [R],
    seconds: Option<&'a [R]>,
) -> Result<Vec<JoinedRow<'a>>, Refusal>
    ensures { Gives (λ found. found.items) result (kept (holds_at scope.now snapshot condition.now)
        (joined_rows (map R.row_of firsts.now) (option_map (map R.row_of) (option_copied seconds.entry)))) }
{
    let filter = Filter::bind(alloc, scope, snapshot, condition)?;
    match seconds {
        None => keep_of_one(alloc, &filter, firsts),
        Some(seconds) => keep_of_two(alloc, &filter, firsts, seconds),
    }
}

fn sort_keys(
    alloc: Global,
    select: &Select,
    scope: &Scope<'_>,
    columns: &[Column],
) -> Result<Vec<SortKey>, Refusal>
    ensures { Gives (λ keys. keys.items) result (each (sort_key select.now scope.now columns.now) select.now.order_by) }
{
    let mut keys = Vec::new(alloc);
    for key in select.order_by.as_slice() {
        keys.push(sort_key(select, scope, columns, key)?)?;
    }
    Ok(keys)
}

fn sort_key(
    select: &Select,
    scope: &Scope<'_>,
    columns: &[Column],
    key: &OrderKey,
) -> Result<SortKey, Refusal>
    ensures { result ≡ sort_key select.now scope.now columns.now key.now }
{
    let of_rows = !(select.is_grouped() || select.distinct);
    let output = output_place(columns, &key.column);
    let place = key_place(of_rows, output, scope.place(&key.column))?;
    let direction = key.direction;
    Ok(SortKey { place, direction })
}

fn output_place(columns: &[Column], name: &ColumnName) -> Option<usize>
    ensures { result ≡ output_place columns.now name.now.table name.now.column }
{
    match name.table {
        None => column_place(&name.column, columns),
        Some(_) => None,
    }
}

fn key_place(
    of_rows: bool,
    output: Option<usize>,
    column: Option<usize>,
) -> Result<KeyPlace, Refusal>
    ensures { result ≡ key_place of_rows output column }
{
    match (output, column) {
        (Some(place), _) => Ok(KeyPlace::Output(place)),
        (None, Some(place)) if of_rows => Ok(KeyPlace::Column(place)),
        (None, _) => Err(Refusal::UnknownName),
    }
}

// DISTINCT, then ORDER BY, then LIMIT.
fn finish(
    alloc: Global,
    select: &Select,
    keys: &[SortKey],
    rows: Vec<OutputRow<'_>>,
) -> Result<Seq<Row>, Refusal>
    ensures rows { IfOk result (λ found. found ≡ finished select.now keys.now rows.entry.items) }
    ensures memory { IfErr result (λ why. why ≡ OutOfMemory) }
{
    let rows = if select.distinct {
        distinct(alloc, rows)?
    } else {
        rows
    };
    outputs_of(alloc, ordered_front(alloc, keys, rows, select.limit)?)
}

// ORDER BY, then LIMIT: the first few rows are put in order one by one; for more, all rows are sorted.
fn ordered_front<'a>(
    alloc: Global,
    keys: &[SortKey],
    rows: Vec<OutputRow<'a>>,
    limit: Option<u64>,
) -> Result<Vec<OutputRow<'a>>, Refusal>
    ensures rows { IfOk result (λ found. found.items ≡ limited limit (sorted_by keys.now rows.entry.items)) }
    ensures memory { IfErr result (λ why. why ≡ OutOfMemory) }
{
    let mut rows = rows;
    match limit {
        Some(limit) if limit <= FEW && !keys.is_empty() => {
            return first_few(alloc, rows, keys, limit as usize);
        }
        _ => sort(&mut rows, keys)?,
    }
    if let Some(limit) = limit {
        rows.truncate(limit as usize);
    }
    Ok(rows)
}

fn outputs_of(alloc: Global, rows: Vec<OutputRow<'_>>) -> Result<Seq<Row>, Refusal>
    ensures rows { IfOk result (λ found. found ≡ map outputs_of rows.entry.items) }
    ensures memory { IfErr result (λ why. why ≡ OutOfMemory) }
{
    let mut found = Vec::with_capacity(alloc, rows.len())?;
    for row in rows {
        found.push(row.outputs)?;
    }
    Ok(Seq::from(found))
}
