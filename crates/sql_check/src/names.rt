//! Names that stand for something, and names that are taken.

ghost use Rattle.std.specs.Prelude.{◌≡◌};
ghost use Rattle.std.specs.Option.{option_copied};
ghost use Rattle.sql_check.specs.Names.{column_named, has_name, has_twins, is_named};
ghost use Rattle.sql_check.specs.Names.{is_reserved, stored_table, table_named};

use sql_tree::{Assignment, Column, IndexSchema, Schema, TableSchema};
use values::Name;

/// What has a name of its own.
pub(crate) trait Named {
    ghost use Rattle.std.specs.Prelude.{List, ℕ};

    ghost name_of: { Self → List ℕ };

    fn name(&self) -> &Name
        ensures { result.now ≡ name_of self.now };
}

impl Named for Column {
    ghost name_of = { λ column. column.name };

    fn name(&self) -> &Name {
        &self.name
    }
}

impl Named for Assignment {
    ghost name_of = { λ assignment. assignment.column };

    fn name(&self) -> &Name {
        &self.column
    }
}

impl Named for TableSchema {
    ghost name_of = { λ table. table.name };

    fn name(&self) -> &Name {
        &self.name
    }
}

impl Named for IndexSchema {
    ghost name_of = { λ index. index.name };

    fn name(&self) -> &Name {
        &self.name
    }
}

/// Whether an item of the list has the name.
pub(crate) fn has_name<T: Named>(name: &Name, items: &[T]) -> bool
    ensures { result ≡ has_name T.name_of name.now items.now }
{
    items.iter().any(|item| item.name() == name)
}

/// Whether a name stands twice in the list.
pub(crate) fn has_twins<T: Named>(items: &[T]) -> bool
    ensures { result ≡ has_twins T.name_of items.now }
{
    let mut rest = items;
    while let Some((item, others)) = rest.split_first() {
        if has_name(item.name(), others) {
            return true;
        }
        rest = others;
    }
    false
}

/// Whether no table of the store may have the name: `SnapIds`, and the names of result tables.
pub fn is_reserved(name: &Name) -> bool
    ensures { result ≡ is_reserved name.now }
{
    name.bytes() == b"SnapIds".as_slice() || name.bytes().starts_with(b"rql_")
}

/// The column of that name.
pub(crate) fn column_named<'a>(name: &Name, columns: &'a [Column]) -> Option<&'a Column>
    ensures { option_copied result ≡ column_named name.now columns.now }
{
    columns.iter().find(|column| column.name == *name)
}

/// The table of that name.
pub(crate) fn table_named<'a>(name: &Name, schema: &'a Schema) -> Option<&'a TableSchema>
    ensures { option_copied result ≡ table_named name.now schema.now }
{
    schema
        .tables
        .as_slice()
        .iter()
        .find(|table| table.name == *name)
}

/// The table of that name where one of the store is wanted.
pub(crate) fn stored_table<'a>(name: &Name, schema: &'a Schema) -> Option<&'a TableSchema>
    ensures { option_copied result ≡ stored_table name.now schema.now }
{
    if is_reserved(name) {
        None
    } else {
        table_named(name, schema)
    }
}

/// Whether a table or an index has the name.
pub(crate) fn is_named(name: &Name, schema: &Schema) -> bool
    ensures { result ≡ is_named name.now schema.now }
{
    let names_table = has_name(name, schema.tables.as_slice());
    let names_index = has_name(name, schema.indexes.as_slice());
    names_table || names_index
}
