//! The rows of the catalog.

ghost use Rattle.std.specs.Prelude.{◌≡◌, ◌∷◌, [], pos, IfOk};
ghost use Rattle.values.specs.Name.{IsName};
ghost use Rattle.heap_file.specs.HeapPage.{IsShort};
ghost use Rattle.relation.specs.CatalogRow.{IsRowOf, IsNameOf, IsNumber, IsKind, IsForm, row_values, kind_number};
ghost use Rattle.relation.specs.Work.{row_of_index};

use sql_tree::Column;
use std::alloc::{AllocError, Global};
use values::{Duplicate, Kind, Name, Row, Seq, Text, Value, is_name};

/// The row of a table: its name and its first page.
#[derive(Drop)]
pub struct TableRow {
    pub name: Name,
    pub first: u32,
}

/// The row of a column: its table's name, its place among the table's columns from 0, and the column.
#[derive(Drop)]
pub struct ColumnRow {
    pub table: Name,
    pub place: u32,
    pub column: Column,
}

/// How an index keeps its entries: not at all, where it is kept by name alone, or in a tree of pages.
#[derive(Clone, Copy)]
pub enum IndexForm {
    Named,
    Tree,
}

/// The row of an index: its name, its table's name, its column's place, its form and its root page, which is 0 where
/// the index is kept by name alone.
#[derive(Drop)]
pub struct IndexRow {
    pub name: Name,
    pub table: Name,
    pub place: u32,
    pub form: IndexForm,
    pub root: u32,
}

/// A row of the catalog.
#[derive(Drop)]
pub enum CatalogRow {
    Table(TableRow),
    Column(ColumnRow),
    Index(IndexRow),
}

impl Duplicate for ColumnRow {
    fn copy(&self, alloc: Global) -> Result<ColumnRow, AllocError> {
        Ok(ColumnRow {
            table: self.table.copy(alloc)?,
            place: self.place,
            column: self.column.copy(alloc)?,
        })
    }
}

/// The row of the catalog that has these values. None where they are a row's of none of the three kinds.
pub fn row_of(alloc: Global, values: &[Value]) -> Result<Option<CatalogRow>, AllocError>
    ensures { IfOk result (IsRowOf values.now) }
{
    match values {
        [Value::Int(1), Value::Text(name), Value::Int(first)] => table_row(alloc, name, *first),
        [
            Value::Int(2),
            Value::Text(table),
            Value::Int(place),
            Value::Text(name),
            Value::Int(kind),
        ] => column_row(alloc, table, *place, name, *kind),
        [
            Value::Int(3),
            Value::Text(name),
            Value::Text(table),
            Value::Int(place),
            Value::Int(form),
            Value::Int(root),
        ] => index_row(alloc, name, table, *place, *form, *root),
        _ => Ok(None),
    }
}

// The row of a table.
fn table_row(alloc: Global, name: &Text, first: i64) -> Result<Option<CatalogRow>, AllocError>
    ensures { IfOk result (IsRowOf (Value.Int (pos 1) ∷ Value.Text name.now ∷ Value.Int first ∷ [])) }
{
    let Some(first) = number_of(first) else {
        return Ok(None);
    };
    match name_of(alloc, name)? {
        Some(name) => Ok(Some(CatalogRow::Table(TableRow { name, first }))),
        None => Ok(None),
    }
}

// The row of a column.
fn column_row(
    alloc: Global,
    table: &Text,
    place: i64,
    name: &Text,
    kind: i64,
) -> Result<Option<CatalogRow>, AllocError>
    ensures { IfOk result
        (IsRowOf
        (Value.Int (pos 2) ∷ Value.Text table.now ∷ Value.Int place ∷ Value.Text name.now ∷ Value.Int kind ∷ [])) }
{
    let (Some(place), Some(kind)) = (number_of(place), kind_of(kind)) else {
        return Ok(None);
    };
    match (name_of(alloc, table)?, name_of(alloc, name)?) {
        (Some(table), Some(name)) => {
            let column = Column { name, kind };
            Ok(Some(CatalogRow::Column(ColumnRow {
                table,
                place,
                column,
            })))
        }
        _ => Ok(None),
    }
}

// The row of an index.
fn index_row(
    alloc: Global,
    name: &Text,
    table: &Text,
    place: i64,
    form: i64,
    root: i64,
) -> Result<Option<CatalogRow>, AllocError>
    ensures { IfOk result
        (IsRowOf
        (Value.Int (pos 3) ∷ Value.Text name.now ∷ Value.Text table.now ∷ Value.Int place ∷ Value.Int form ∷
        Value.Int root ∷ [])) }
{
    let (Some(place), Some(form), Some(root)) = (number_of(place), form_of(form), number_of(root))
    else {
        return Ok(None);
    };
    match (name_of(alloc, name)?, name_of(alloc, table)?) {
        (Some(name), Some(table)) => Ok(Some(CatalogRow::Index(IndexRow {
            name,
            table,
            place,
            form,
            root,
        }))),
        _ => Ok(None),
    }
}

// The name that a text is.
fn name_of(alloc: Global, text: &Text) -> Result<Option<Name>, AllocError>
    ensures { IfOk result (IsNameOf text.now) }
{
    let bytes = text.bytes();
    if !is_name(bytes) {
        return Ok(None);
    }
    Ok(Some(Name::new(Seq::from(bytes.to_vec(alloc)?))))
}

// The number of four bytes that an integer is.
fn number_of(integer: i64) -> Option<u32>
    ensures { IsNumber integer result }
{
    if integer >= 0 && integer <= 0xffff_ffff {
        Some(integer as u32)
    } else {
        None
    }
}

// The kind of a column by its number.
fn kind_of(number: i64) -> Option<Kind>
    ensures { IsKind number result }
{
    match number {
        1 => Some(Kind::Int),
        2 => Some(Kind::Text),
        _ => None,
    }
}

// The form of an index by its number.
fn form_of(number: i64) -> Option<IndexForm>
    ensures { IsForm number result }
{
    match number {
        0 => Some(IndexForm::Named),
        2 => Some(IndexForm::Tree),
        _ => None,
    }
}

/// The values of a table's row.
pub fn table_values(alloc: Global, name: &Name, first: u32) -> Result<Row, AllocError>
    ensures values { IfOk result
        (λ values. values ≡ row_values (CatalogRow.Table (record { name = name.now; first = first }))) }
    ensures short { IfOk result IsShort }
{
    let mut values = Vec::new(alloc);
    values.push(Value::Int(1))?;
    values.push(name_value(alloc, name)?)?;
    values.push(Value::Int(i64::from(first)))?;
    Ok(Seq::from(values))
}

/// The values of a column's row.
pub fn column_values(
    alloc: Global,
    table: &Name,
    place: u32,
    column: &Column,
) -> Result<Row, AllocError>
    ensures values { IfOk result
        (λ values. values ≡ row_values
        (CatalogRow.Column (record { table = table.now; place = place; column = column.now }))) }
    ensures short { IfOk result IsShort }
{
    let mut values = Vec::new(alloc);
    values.push(Value::Int(2))?;
    values.push(name_value(alloc, table)?)?;
    values.push(Value::Int(i64::from(place)))?;
    values.push(name_value(alloc, &column.name)?)?;
    values.push(Value::Int(kind_number(column.kind)))?;
    Ok(Seq::from(values))
}

/// The values of the row of an index that has pages.
pub fn index_values(
    alloc: Global,
    name: &Name,
    table: &Name,
    place: u32,
    root: u32,
) -> Result<Row, AllocError>
    ensures values { IfOk result (λ values. values ≡ row_values (row_of_index name.now table.now place root)) }
    ensures short { IfOk result IsShort }
{
    let mut values = Vec::new(alloc);
    values.push(Value::Int(3))?;
    values.push(name_value(alloc, name)?)?;
    values.push(name_value(alloc, table)?)?;
    values.push(Value::Int(i64::from(place)))?;
    values.push(Value::Int(2))?;
    values.push(Value::Int(i64::from(root)))?;
    Ok(Seq::from(values))
}

/// A name as a value.
pub fn name_value(alloc: Global, name: &Name) -> Result<Value, AllocError>
    ensures value { IfOk result (λ value. value ≡ Value.Text name.now) }
    ensures is_name { IsName name.now }
{
    Ok(Value::Text(Text::new(Seq::from(name.bytes().to_vec(alloc)?))))
}

fn kind_number(kind: Kind) -> i64
    ensures { result ≡ pos (kind_number kind) }
{
    match kind {
        Kind::Int => 1,
        Kind::Text => 2,
    }
}
