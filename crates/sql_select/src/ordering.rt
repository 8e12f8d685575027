//! Rows in the order of keys.

ghost use Rattle.std.specs.Prelude.{◌≡◌, ◌≤◌, OnOk, OnErr, IfErr, IfOk, length, take};
ghost use Rattle.std.specs.List.Sorted.{IsSortedBy};
ghost use Rattle.std.specs.Option.{option_copied};
ghost use Rattle.retro_base.specs.declared.refusal.Refusal.TheVariants.{OutOfMemory};
ghost use Rattle.values.specs.Value.{value_cmp};
ghost use Rattle.sql_select.specs.Order.{comes_before, first_place, key_cmp, keys_cmp, place_cmp};
ghost use Rattle.sql_select.specs.Order.{placed, sorted_by, value_at};

use crate::output_row::OutputRow;
use retro_base::Refusal;
use sql_tree::Direction;
use std::alloc::Global;
use std::cmp::Ordering;
use values::{Kind, Value, compare};

/// Where the value of a key stands: among the outputs, or among the columns of the joined row behind them.
#[derive(Clone, Copy, Debug)]
pub enum KeyPlace {
    Output(usize),
    Column(usize),
}

/// A key of ORDER BY, with the place of its value.
#[derive(Clone, Copy, Debug)]
pub struct SortKey {
    pub place: KeyPlace,
    pub direction: Direction,
}

fn value_at<'a>(place: KeyPlace, row: &'a OutputRow<'_>) -> Option<&'a Value>
    ensures { option_copied result ≡ value_at place row.now }
{
    match place {
        KeyPlace::Output(place) => row.outputs.as_slice().get(place),
        KeyPlace::Column(place) => row.origin.get(place),
    }
}

/// Compares two values: integers by number, texts by bytes; integers before texts.
pub(crate) fn compare_any(a: &Value, b: &Value) -> Ordering
    ensures { result ≡ value_cmp a.now b.now }
{
    match (a.kind(), b.kind()) {
        (Kind::Int, Kind::Text) => Ordering::Less,
        (Kind::Text, Kind::Int) => Ordering::Greater,
        (Kind::Int, Kind::Int) => compare(a, b),
        (Kind::Text, Kind::Text) => compare(a, b),
    }
}

// A value that is not there goes first.
fn compare_at(place: KeyPlace, a: &OutputRow<'_>, b: &OutputRow<'_>) -> Ordering
    ensures { result ≡ place_cmp place a.now b.now }
{
    match (value_at(place, a), value_at(place, b)) {
        (None, None) => Ordering::Equal,
        (None, Some(_)) => Ordering::Less,
        (Some(_), None) => Ordering::Greater,
        (Some(x), Some(y)) => compare_any(x, y),
    }
}

fn compare_by(key: SortKey, a: &OutputRow<'_>, b: &OutputRow<'_>) -> Ordering
    ensures { result ≡ key_cmp key a.now b.now }
{
    match key.direction {
        Direction::Ascending => compare_at(key.place, a, b),
        Direction::Descending => compare_at(key.place, b, a),
    }
}

fn compare_by_all(keys: &[SortKey], a: &OutputRow<'_>, b: &OutputRow<'_>) -> Ordering
    ensures { result ≡ keys_cmp keys.now a.now b.now }
{
    for key in keys {
        let order = compare_by(*key, a, b);
        if order != Ordering::Equal {
            return order;
        }
    }
    Ordering::Equal
}

/// Puts the rows in the order of the keys; ties stay as they were.
pub(crate) fn sort(rows: &mut Vec<OutputRow<'_>>, keys: &[SortKey]) -> Result<(), Refusal>
    ensures sorted { OnOk result (rows.new.items ≡ sorted_by keys.now rows.old.items) }
    ensures memory { IfErr result (λ why. why ≡ OutOfMemory) }
{
    rows.sort_by(|a, b| compare_by_all(keys, a, b))?;
    Ok(())
}

// How many of the kept rows are before this one; a row behind all of them is compared with the last alone.
fn first_place(row: &OutputRow<'_>, kept: &[OutputRow<'_>], keys: &[SortKey]) -> usize
    requires { IsSortedBy (comes_before keys.now) kept.now }
    ensures { result ≡ first_place (comes_before keys.now) row.now kept.now }
{
    match kept.last() {
        Some(last) if compare_by_all(keys, last, row).is_lt() => kept.len(),
        _ => place_from_front(row, kept, keys),
    }
}

fn place_from_front(row: &OutputRow<'_>, kept: &[OutputRow<'_>], keys: &[SortKey]) -> usize
    ensures { result ≡ first_place (comes_before keys.now) row.now kept.now }
{
    kept.iter()
        .take_while(|other| compare_by_all(keys, other, row).is_lt())
        .count()
}

// Puts a row in its place among those kept, of which the first `count` stay.
fn keep<'a>(
    kept: &mut Vec<OutputRow<'a>>,
    row: OutputRow<'a>,
    keys: &[SortKey],
    count: usize,
) -> Result<(), Refusal>
    requires sorted { IsSortedBy (comes_before keys.now) kept.old.items }
    requires few { length kept.old.items ≤ count }
    ensures kept { OnOk result (kept.new.items ≡ take count (placed (comes_before keys.now) row.entry kept.old.items)) }
    ensures memory { IfErr result (λ why. why ≡ OutOfMemory) }
{
    let place = first_place(&row, kept, keys);
    if place < count {
        kept.insert(place, row)?;
        kept.truncate(count);
    }
    Ok(())
}

/// The first `count` rows in the order of the keys; ties stay as they were. Each row is compared with the last kept;
/// one that is kept, with as many as are before it.
pub(crate) fn first_few<'a>(
    alloc: Global,
    rows: Vec<OutputRow<'a>>,
    keys: &[SortKey],
    count: usize,
) -> Result<Vec<OutputRow<'a>>, Refusal>
    ensures first { IfOk result (λ kept. kept.items ≡ take count (sorted_by keys.now rows.entry.items)) }
    ensures memory { IfErr result (λ why. why ≡ OutOfMemory) }
{
    let mut rest = rows;
    let mut kept = Vec::new(alloc);
    // From the last row on: a row goes before its ties.
    'rows: while let Some(row) = rest.pop() {
        keep(&mut kept, row, keys, count)?;
    }
    Ok(kept)
}
