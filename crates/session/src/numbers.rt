//! The snapshots of a call, by their numbers.

ghost use Rattle.std.specs.Prelude.{◌≡◌, ◌++◌, IfErr, IfOk, OnOk, option_to_list, true};
ghost use Rattle.std.specs.List.{AllByRecursion, flat_map};
ghost use Rattle.retro_base.specs.declared.refusal.Refusal.TheVariants.{OutOfMemory};
ghost use Rattle.session.specs.OverSnapshots.{numbers_of};
ghost use Rattle.session.specs.Calls.{AreRising, IsNumber, ListsAll, has_number, is_bare, is_retained};
ghost use Rattle.session.specs.Calls.{marked_numbers, number_column};

use history::{Mark, newest};
use retro_base::Refusal;
use sql_tree::{ColumnName, Output, OutputValue, Select};
use std::alloc::Global;
use values::{Row, Value};

// The number that a row of a list of snapshots holds.
fn number_in(row: &[Value]) -> Option<u64>
    ensures { option_to_list result ≡ numbers_of row.now }
{
    match row {
        [Value::Int(number)] => match u64::try_from(*number) {
            Ok(number) => Some(number),
            Err(_) => None,
        },
        _ => None,
    }
}

// Whether a snapshot has this number.
fn has_number(marks: &[Mark], number: u32) -> bool
    requires { AreRising marks.now }
    ensures { result ≡ has_number number marks.now }
{
    marks
        .binary_search_by_key(&number, |mark| mark.number)
        .is_ok()
}

fn is_retained(marks: &[Mark], number: u32) -> bool
    requires { AreRising marks.now }
    ensures { result ≡ is_retained number marks.now }
{
    number != 0 && number <= newest(marks) && has_number(marks, number)
}

// Adds the number that a row holds, if it holds one, which has to be among these marks.
fn push_number(row: &[Value], marks: &[Mark], numbers: &mut Vec<u32>) -> Result<(), Refusal>
    requires rising { AreRising marks.now }
    ensures pushed { OnOk result (numbers.new.items ≡ numbers.old.items ++ numbers_of row.now) }
    ensures retained { OnOk result
        (AllByRecursion (λ number. is_retained number marks.now ≡ true) (numbers_of row.now)) }
    ensures memory { IfErr result (λ why. why ≡ OutOfMemory) }
{
    let Some(number) = number_in(row) else {
        return Ok(());
    };
    let Ok(number) = u32::try_from(number) else {
        return Err(Refusal::OutOfMemory);
    };
    if !is_retained(marks, number) {
        return Err(Refusal::OutOfMemory);
    }
    numbers.push(number)?;
    Ok(())
}

/// The numbers that rows of a list of snapshots hold, all of which are those of these marks. No list that the grammar
/// has gives another number; as that is not told of its rows, one that did would be refused for want of memory.
#[tactic(auto, using(crate::proofs::Going::all_append))]
pub fn numbers_in(alloc: Global, rows: &[Row], marks: &[Mark]) -> Result<Vec<u32>, Refusal>
    requires rising { AreRising marks.now }
    ensures numbers { IfOk result (λ numbers. numbers.items ≡ flat_map numbers_of rows.now) }
    ensures retained { IfOk result
        (λ numbers. AllByRecursion (λ number. is_retained number marks.now ≡ true) numbers.items) }
    ensures memory { IfErr result (λ why. why ≡ OutOfMemory) }
{
    let mut numbers = Vec::new(alloc);
    for row in rows {
        push_number(row.as_slice(), marks, &mut numbers)?;
    }
    Ok(numbers)
}

// Whether a name is that of the column of the numbers, as a list of snapshots has it.
fn names_number(name: &ColumnName) -> bool
    ensures { result ≡ true → name.now ≡ number_column }
{
    name.table.is_none() && name.column.bytes() == b"snap_id".as_slice()
}

// Whether an output is the number of a snapshot.
fn is_number(output: &Output) -> bool
    ensures { result ≡ true → IsNumber output.now }
{
    match &output.value {
        OutputValue::Expression(of) => match of.column() {
            Some(name) => names_number(name),
            None => false,
        },
        OutputValue::Aggregate(_) => false,
    }
}

// Whether a select is of one table and takes its rows as they stand.
fn is_bare(query: &Select) -> bool
    ensures { result ≡ is_bare query.now }
{
    !query.distinct
        && query.second.is_none()
        && query.condition.is_none()
        && query.group_by.is_empty()
        && query.order_by.is_empty()
        && query.limit.is_none()
}

/// Whether a list of snapshots has no part but `SELECT snap_id FROM SnapIds`, so that it gives the numbers of all.
pub fn lists_all(query: &Select) -> bool
    ensures { result ≡ true → ListsAll query.now }
{
    match query.list.outputs() {
        [output] => is_bare(query) && is_number(output),
        _ => false,
    }
}

/// The numbers of all these marks, in order.
pub fn all_numbers(alloc: Global, marks: &[Mark]) -> Result<Vec<u32>, Refusal>
    requires rising { AreRising marks.now }
    ensures numbers { IfOk result (λ numbers. numbers.items ≡ marked_numbers marks.now) }
    ensures retained { IfOk result
        (λ numbers. AllByRecursion (λ number. is_retained number marks.now ≡ true) numbers.items) }
    ensures memory { IfErr result (λ why. why ≡ OutOfMemory) }
{
    let numbers = marks.iter().map(|mark| mark.number).collect(alloc)?;
    Ok(numbers)
}
