//! What is found by name among the rows of the catalog: the rows of a table's columns, its indexes, and tables.

ghost use Rattle.std.specs.Prelude.{◌≡◌, ◌++◌, ◌∷◌, [], List, ℕ, None, IfOk, OnOk, MatchOption, if◌then◌else◌};
ghost use Rattle.relation.specs.Catalog.{as_column, as_kept, column_rows, kept_indexes};
ghost use Rattle.values.specs.Name.{same_name};
ghost use Rattle.relation.specs.declared.row.CatalogRow.TheVariants.{Column, Index};
ghost use Rattle.relation.specs.declared.row.IndexForm.TheVariants.{Tree};
ghost use Rattle.relation.specs.Named.{ArePlaces, rows_under};

use crate::catalog::{CatalogEntry, StoredIndex, StoredTable};
use crate::row::{CatalogRow, ColumnRow, IndexForm, IndexRow};
use std::alloc::{AllocError, Global};
use std::collections::BTreeMap;
use values::{Duplicate, Name, Seq};

/// The rows of columns, by the name of their table.
pub type ColumnRows = BTreeMap<Name, Seq<ColumnRow>>;

/// The indexes that tables keep, by the name of their table.
pub type KeptIndexes = BTreeMap<Name, Seq<StoredIndex>>;

/// The place of the first table of each name.
pub type Places = BTreeMap<Name, usize>;

/// The rows of columns among these rows.
pub fn columns_by_table(alloc: Global, rows: &[CatalogEntry]) -> Result<ColumnRows, AllocError>
    ensures { IfOk result (λ columns. (table : List ℕ) → rows_under columns table ≡ column_rows table rows.now) }
{
    let mut columns = BTreeMap::new(alloc);
    for told in rows {
        if let Some(row) = column_row(told) {
            add_under(alloc, &mut columns, &row.table, row.copy(alloc)?)?;
        }
    }
    Ok(columns)
}

// A column's row.
fn column_row(told: &CatalogEntry) -> Option<&ColumnRow>
    ensures { MatchOption result ((table : List ℕ) → as_column table told.now.row ≡ None)
        (λ row. told.now.row ≡ Column row.now) }
{
    match &told.row {
        CatalogRow::Table(_) => None,
        CatalogRow::Column(row) => Some(row),
        CatalogRow::Index(_) => None,
    }
}

/// The indexes that tables keep among these rows.
pub fn indexes_by_table(alloc: Global, rows: &[CatalogEntry]) -> Result<KeptIndexes, AllocError>
    ensures { IfOk result (λ indexes. (table : List ℕ) → rows_under indexes table ≡ kept_indexes table rows.now) }
{
    let mut indexes = BTreeMap::new(alloc);
    for told in rows {
        if let Some(row) = kept_row(told) {
            let index = StoredIndex {
                place: row.place,
                root: row.root,
            };
            add_under(alloc, &mut indexes, &row.table, index)?;
        }
    }
    Ok(indexes)
}

// The row of an index that its table keeps.
fn kept_row(told: &CatalogEntry) -> Option<&IndexRow>
    ensures { MatchOption result ((table : List ℕ) → as_kept table told.now.row ≡ None)
        (λ row. (told.now.row ≡ Index row.now) × (row.now.form ≡ Tree)) }
{
    match &told.row {
        CatalogRow::Table(_) => None,
        CatalogRow::Column(_) => None,
        CatalogRow::Index(row) => match row.form {
            IndexForm::Named => None,
            IndexForm::Tree => Some(row),
        },
    }
}

// Adds an item behind those that are kept for that table.
fn add_under<T: Drop>(
    alloc: Global,
    kept: &mut BTreeMap<Name, Seq<T>>,
    table: &Name,
    item: T,
) -> Result<(), AllocError>
    ensures { OnOk result ((name : List ℕ) → rows_under kept.new name
        ≡ rows_under kept.old name ++ (if same_name table.now name then item ∷ [] else [])) }
{
    let mut items = kept.remove(table).unwrap_or(Seq::new(alloc));
    items.push(item)?;
    kept.insert(table.copy(alloc)?, items)?;
    Ok(())
}

/// The places of these tables.
pub fn places_of(alloc: Global, tables: &[StoredTable]) -> Result<Places, AllocError>
    ensures { IfOk result (ArePlaces tables.now) }
{
    let mut places = BTreeMap::new(alloc);
    for (place, table) in tables.iter().enumerate() {
        if !places.contains_key(&table.name) {
            places.insert(table.name.copy(alloc)?, place)?;
        }
    }
    Ok(places)
}
