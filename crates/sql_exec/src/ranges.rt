//! Which rows a statement reads of a table: those in a range of an index, or all.

ghost use Rattle.std.specs.Prelude.{◌≡◌, IfOk, Some};
ghost use Rattle.sql_exec.specs.Ranges.{better, greatest, holds_one, least, plan_of, range_over, range_within};

use crate::bounds::{BoundColumn, Bounds, bounds_of, is_below};
use relation::StoredIndex;
use sql_tree::{Condition, Scope, TableSchema};
use std::alloc::{AllocError, Global};
use values::{Kind, Seq, TEXT_BYTES, Text, Value};

/// The entries of an index whose value is at least `low` and at most `high`.
#[derive(Drop)]
pub struct Range {
    pub index: StoredIndex,
    pub low: Value,
    pub high: Value,
}

/// The range of an index in which all rows lie for which the condition holds: the first of at most one value that it
/// leaves of the indexes; where there is none, the first. None where all rows are to be read.
pub(crate) fn plan(
    alloc: Global,
    table: &TableSchema,
    indexes: &[StoredIndex],
    condition: &Condition,
) -> Result<Option<Range>, AllocError>
    ensures { IfOk result (λ plan. plan ≡ plan_of table.now indexes.now (Some condition.now)) }
{
    let mut best = None;
    for index in indexes {
        best = better(best, range_over(alloc, table, *index, condition)?);
    }
    Ok(best)
}

// Of two ranges, if they are there, the first, but one of at most one value goes before one of many.
fn better(a: Option<Range>, b: Option<Range>) -> Option<Range>
    ensures { result ≡ better a b }
{
    match (a, b) {
        (Some(a), Some(b)) => Some(if holds_one(&b) && !holds_one(&a) {
            b
        } else {
            a
        }),
        (Some(a), None) => Some(a),
        (None, b) => b,
    }
}

// Whether at most one value lies in the range.
fn holds_one(range: &Range) -> bool
    ensures { result ≡ holds_one range.now }
{
    !is_below(&range.low, &range.high)
}

// The range that a condition leaves of an index; none where it sets no bounds to the index's column.
fn range_over(
    alloc: Global,
    table: &TableSchema,
    index: StoredIndex,
    condition: &Condition,
) -> Result<Option<Range>, AllocError>
    ensures { IfOk result (λ range. range ≡ range_over table.now condition.now index) }
{
    let place = index.place as usize;
    let Some(column) = table.columns.as_slice().get(place) else {
        return Ok(None);
    };
    let kind = column.kind;
    let scope = Scope::of_one(table);
    let bounds = bounds_of(alloc, &scope, BoundColumn { place, kind }, condition)?;
    range_within(alloc, index, kind, bounds)
}

// The range of an index within bounds, of which one at least is there.
fn range_within(
    alloc: Global,
    index: StoredIndex,
    kind: Kind,
    bounds: Bounds,
) -> Result<Option<Range>, AllocError>
    ensures { IfOk result (λ range. range ≡ range_within index kind bounds.low bounds.high) }
{
    let (low, high) = match (bounds.low, bounds.high) {
        (Some(low), Some(high)) => (low, high),
        (Some(low), None) => (low, greatest(alloc, kind)?),
        (None, Some(high)) => (least(alloc, kind), high),
        (None, None) => return Ok(None),
    };
    Ok(Some(Range { index, low, high }))
}

// The least value of a kind.
fn least(alloc: Global, kind: Kind) -> Value
    ensures { result ≡ least kind }
{
    match kind {
        Kind::Int => Value::Int(i64::MIN),
        Kind::Text => Value::Text(Text::new(Seq::new(alloc))),
    }
}

// The greatest value of a kind: of a text the longest of the greatest byte.
#[tactic(auto, using(crate::proofs::Ranged::tildes_text))]
fn greatest(alloc: Global, kind: Kind) -> Result<Value, AllocError>
    ensures { IfOk result (λ value. value ≡ greatest kind) }
{
    match kind {
        Kind::Int => Ok(Value::Int(i64::MAX)),
        Kind::Text => {
            let bytes = vec![in alloc; b'~'; TEXT_BYTES]?;
            Ok(Value::Text(Text::new(Seq::from(bytes))))
        }
    }
}
