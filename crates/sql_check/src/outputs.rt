//! The columns of a select's answer.

ghost use Rattle.std.specs.Prelude.{◌≡◌, ◌<◌, ◌^◌, IfOk, List};
ghost use Rattle.sql_tree.specs.declared.schema.TableSchema.{TableSchema};
ghost use Rattle.sql_tree.specs.Scope.{has_column};
ghost use Rattle.sql_check.specs.Outputs.{answer_columns, numbered_name, output_column};
ghost use Rattle.sql_check.specs.Outputs.{output_columns, output_name, own_name};
ghost use Rattle.values.specs.Name.{same_name};

use itoa::Buffer;
use sql_kinds::output_kind;
use sql_tree::{Column, Output, OutputValue, Scope, SelectList};
use std::alloc::{AllocError, Global};
use values::{Duplicate, Kind, Name, Seq};

// The name of an output that has none of its own: `col` and its place.
fn numbered_name(alloc: Global, place: usize) -> Result<Name, AllocError>
    ensures { IfOk result (λ name. name ≡ numbered_name place) }
{
    let mut bytes = b"col".to_vec(alloc)?;
    let digits = place.to_string(alloc)?;
    bytes.extend_from_slice(digits.as_bytes())?;
    Ok(Name::new(Seq::from(bytes)))
}

fn own_name(alloc: Global, place: usize, value: &OutputValue) -> Result<Name, AllocError>
    ensures { IfOk result (λ name. name ≡ own_name place value.now) }
{
    match value {
        OutputValue::Expression(of) => match of.column() {
            Some(name) => name.column.copy(alloc),
            None => numbered_name(alloc, place),
        },
        OutputValue::Aggregate(_) => numbered_name(alloc, place),
    }
}

fn output_name(alloc: Global, place: usize, output: &Output) -> Result<Name, AllocError>
    ensures { IfOk result (λ name. name ≡ output_name place output.now) }
{
    match &output.name {
        Some(name) => name.copy(alloc),
        None => own_name(alloc, place, &output.value),
    }
}

// Where the output has no kind, which no checked select has, the column is INT.
fn output_column(
    alloc: Global,
    scope: &Scope<'_>,
    place: usize,
    output: &Output,
) -> Result<Column, AllocError>
    ensures { IfOk result (λ column. column ≡ output_column scope.now place output.now) }
{
    let name = output_name(alloc, place, output)?;
    let kind = output_kind(scope, &output.value).unwrap_or(Kind::Int);
    Ok(Column { name, kind })
}

fn output_columns(
    alloc: Global,
    scope: &Scope<'_>,
    outputs: &[Output],
) -> Result<Seq<Column>, AllocError>
    ensures { IfOk result (λ columns. columns ≡ output_columns scope.now 1 outputs.now) }
{
    let mut columns = Seq::new(alloc);
    for (i, output) in outputs.iter().enumerate() {
        columns.push(output_column(alloc, scope, i + 1, output)?)?;
    }
    Ok(columns)
}

/// The columns of the answer that has these outputs: for `*` all columns of the scope, and else one for each output. An
/// output's name is its AS name, else its column's, else `col` and its place from 1. Refused for want of memory alone.
pub fn answer_columns(
    alloc: Global,
    scope: &Scope<'_>,
    list: &SelectList,
) -> Result<Seq<Column>, AllocError>
    ensures { IfOk result (λ columns. columns ≡ answer_columns scope.now list.now) }
{
    match list {
        SelectList::All => scope.columns(alloc),
        SelectList::Outputs(outputs) => output_columns(alloc, scope, outputs.as_slice()),
    }
}

// Whether it is the name that an output at that place has, where it has none of its own.
fn is_numbered_name(name: &Name, place: usize) -> bool
    ensures { result ≡ same_name (numbered_name place) name.now }
{
    let mut buffer = Buffer::new();
    match name.bytes().strip_prefix(b"col") {
        Some(digits) => buffer.format(place).as_bytes() == digits,
        None => false,
    }
}

fn is_own_name(name: &Name, place: usize, value: &OutputValue) -> bool
    ensures { result ≡ same_name (own_name place value.now) name.now }
{
    match value {
        OutputValue::Expression(of) => match of.column() {
            Some(column) => column.column == *name,
            None => is_numbered_name(name, place),
        },
        OutputValue::Aggregate(_) => is_numbered_name(name, place),
    }
}

fn is_output_name(name: &Name, place: usize, output: &Output) -> bool
    ensures { result ≡ same_name (output_name place output.now) name.now }
{
    match &output.name {
        Some(own) => own == name,
        None => is_own_name(name, place, &output.value),
    }
}

fn is_any_name(name: &Name, outputs: &[Output]) -> bool
    ensures { (scope : List TableSchema) → result ≡ has_column (output_columns scope 1 outputs.now) name.now }
{
    for (i, output) in outputs.iter().enumerate() {
        if is_output_name(name, i + 1, output) {
            return true;
        }
    }
    false
}

/// Whether a column of the answer that has these outputs has the name.
pub(crate) fn names_column(scope: &Scope<'_>, list: &SelectList, name: &Name) -> bool
    ensures { result ≡ has_column (answer_columns scope.now list.now) name.now }
{
    match list {
        SelectList::All => scope.has_column(name),
        SelectList::Outputs(outputs) => is_any_name(name, outputs.as_slice()),
    }
}
