//! The catalog: what tables and indexes there are.

ghost use Rattle.std.specs.Prelude.{◌≡◌, None, Some, MatchOption, IfOk};
ghost use Rattle.pager.specs.Draft.{Reads};
ghost use Rattle.pager.specs.Stop.{OnlyReads};
ghost use Rattle.relation.specs.Catalog.{AreColumnsOf, as_index, as_table, HaveFewColumns, catalog};
ghost use Rattle.relation.specs.Catalog.{catalog_rows, index_rows, index_told, schema_of, table_named};
ghost use Rattle.relation.specs.Catalog.{table_rows, table_told, table_with, row_told, row_at, table_place};
ghost use Rattle.relation.specs.Each.{each, TellsPage};
ghost use Rattle.relation.specs.Named.{ArePlaces, rows_under};

use crate::named::{
    ColumnRows, KeptIndexes, Places, columns_by_table, indexes_by_table, places_of,
};
use crate::row::{CatalogRow, ColumnRow, IndexRow, TableRow, row_of};
use heap_file::{Placed, drafting};
use pager::{Draft, Pager, Stop, broken};
use retro_base::{COLUMNS, Refusal};
use sql_tree::{Column, IndexSchema, Schema, TableSchema};
use std::alloc::{AllocError, Global};
use values::{Duplicate, Name, Seq};

/// The first page of the catalog.
pub const CATALOG: u32 = 1;

/// What a row of the catalog tells, and the page where it stands.
#[derive(Drop)]
pub struct CatalogEntry {
    pub page: u32,
    pub row: CatalogRow,
}

/// An index that a table keeps: the place of its column among the table's, and its root page.
#[derive(Clone, Copy)]
pub struct StoredIndex {
    pub place: u32,
    pub root: u32,
}

impl Duplicate for StoredIndex {
    fn copy(&self, _alloc: Global) -> Result<StoredIndex, AllocError> {
        Ok(*self)
    }
}

/// A table: its name, its first page, its columns in order, and the indexes that it keeps, in the order in which they
/// were made. An index that is kept by name alone is none of these.
#[derive(Drop)]
pub struct StoredTable {
    pub name: Name,
    pub first: u32,
    pub columns: Seq<Column>,
    pub indexes: Seq<StoredIndex>,
}

/// The tables and all indexes, in the order in which they were made.
#[derive(Drop)]
pub struct Catalog {
    pub tables: Seq<StoredTable>,
    pub indexes: Seq<IndexSchema>,
}

impl Catalog {
    /// The table of that name, if there is one.
    pub fn table(&self, name: &Name) -> Option<&StoredTable>
        ensures { MatchOption result (table_named name.now self.now.tables ≡ None)
            (λ table. table_named name.now self.now.tables ≡ Some table.now) }
    {
        let tables = self.tables.as_slice();
        match find(tables, name) {
            Some(place) => Some(&tables[place]),
            None => None,
        }
    }

    /// The tables and the indexes, without pages.
    pub fn schema(&self, alloc: Global) -> Result<Schema, AllocError>
        ensures { IfOk result (λ schema. schema ≡ schema_of self.now) }
    {
        let mut tables = Seq::new(alloc);
        for table in self.tables.as_slice() {
            tables.push(TableSchema {
                name: table.name.copy(alloc)?,
                columns: table.columns.copy(alloc)?,
            })?;
        }
        Ok(Schema {
            tables,
            indexes: self.indexes.copy(alloc)?,
        })
    }
}

/// The tables and indexes of the catalog.
pub fn read_catalog<P: Pager>(
    alloc: Global,
    pager: &mut P,
    draft: &Draft,
) -> Result<Catalog, Stop<P::Fault>>
    requires { draft.now.size ≡ P.size pager.old }
    ensures read { Reads (λ catalog. catalog) (P.tells pager.new) draft.now.list (λ pages. catalog draft.now.size pages)
        result }
    ensures few { IfOk result (λ catalog. HaveFewColumns catalog.tables) }
    ensures only_reads { OnlyReads P.tells P.goes P.size P.faults pager.old pager.new result }
{
    let rows = read_rows(alloc, pager, draft)?;
    let tables = tables_told(alloc, &rows)?;
    let indexes = indexes_told(alloc, &tables, &rows)?;
    Ok(Catalog {
        tables: Seq::from(tables),
        indexes: Seq::from(indexes),
    })
}

// The rows of the catalog, in rising number.
fn read_rows<P: Pager>(
    alloc: Global,
    pager: &mut P,
    draft: &Draft,
) -> Result<Vec<CatalogEntry>, Stop<P::Fault>>
    requires { draft.now.size ≡ P.size pager.old }
    ensures read { Reads (λ rows. rows.items) (P.tells pager.new) draft.now.list
        (λ pages. catalog_rows draft.now.size pages) result }
    ensures only_reads { OnlyReads P.tells P.goes P.size P.faults pager.old pager.new result }
{
    let (rows, next) = drafting::scan_with_next(alloc, pager, draft, CATALOG)?;
    if next != rows.len() as u64 {
        return Err(Stop::Refused(broken(CATALOG)));
    }
    Ok(all_told(alloc, &rows)?)
}

// What stored rows of the catalog tell.
fn all_told(alloc: Global, rows: &[Placed]) -> Result<Vec<CatalogEntry>, Refusal>
    ensures { TellsPage (λ told. told.items) (each row_told rows.now) result }
{
    let mut all = Vec::new(alloc);
    for placed in rows {
        all.push(told_by(alloc, placed)?)?;
    }
    Ok(all)
}

// What a stored row of the catalog tells.
fn told_by(alloc: Global, placed: &Placed) -> Result<CatalogEntry, Refusal>
    ensures { TellsPage (λ told. told) (row_told placed.now) result }
{
    let page = placed.page;
    match row_of(alloc, placed.row.as_slice())? {
        Some(row) => Ok(CatalogEntry { page, row }),
        None => Err(broken(page)),
    }
}

// The tables that the rows tell.
fn tables_told(alloc: Global, rows: &[CatalogEntry]) -> Result<Vec<StoredTable>, Refusal>
    ensures { TellsPage (λ tables. tables.items) (each (table_told rows.now) (table_rows rows.now)) result }
{
    let mut tables = Vec::new(alloc);
    let columns = columns_by_table(alloc, rows)?;
    let indexes = indexes_by_table(alloc, rows)?;
    for told in rows {
        if let Some(row) = table_row(told) {
            tables.push(table_told(alloc, &columns, &indexes, told.page, row)?)?;
        }
    }
    Ok(tables)
}

// A table's row.
fn table_row(told: &CatalogEntry) -> Option<&TableRow>
    ensures { MatchOption result (as_table told.now.page told.now.row ≡ None)
        (λ row. as_table told.now.page told.now.row ≡ Some (told.now.page, row.now)) }
{
    match &told.row {
        CatalogRow::Table(row) => Some(row),
        CatalogRow::Column(_) => None,
        CatalogRow::Index(_) => None,
    }
}

// The table of a row that stands on that page.
fn table_told(
    alloc: Global,
    columns: &ColumnRows,
    indexes: &KeptIndexes,
    page: u32,
    row: &TableRow,
) -> Result<StoredTable, Refusal>
    ensures { TellsPage (λ table. table)
        (table_with (rows_under columns.now row.now.name) (rows_under indexes.now row.now.name) (page, row.now))
        result }
{
    let Some(columns) = columns_under(alloc, columns, &row.name)? else {
        return Err(broken(page));
    };
    Ok(StoredTable {
        name: row.name.copy(alloc)?,
        first: row.first,
        columns,
        indexes: indexes_under(alloc, indexes, &row.name)?,
    })
}

// The indexes that the table of that name keeps.
fn indexes_under(
    alloc: Global,
    indexes: &KeptIndexes,
    table: &Name,
) -> Result<Seq<StoredIndex>, AllocError>
    ensures { IfOk result (λ kept. kept ≡ rows_under indexes.now table.now) }
{
    match indexes.get(table) {
        Some(kept) => kept.copy(alloc),
        None => Ok(Seq::new(alloc)),
    }
}

// The columns of that table. None where their rows tell no table's columns.
fn columns_under(
    alloc: Global,
    columns: &ColumnRows,
    table: &Name,
) -> Result<Option<Seq<Column>>, AllocError>
    ensures { IfOk result (AreColumnsOf (rows_under columns.now table.now)) }
{
    match columns.get(table) {
        Some(rows) => columns_of(alloc, rows.as_slice()),
        None => Ok(None),
    }
}

// The columns that their rows tell. None where they tell no table's columns.
fn columns_of(alloc: Global, rows: &[ColumnRow]) -> Result<Option<Seq<Column>>, AllocError>
    ensures { IfOk result (AreColumnsOf rows.now) }
{
    if rows.is_empty() || rows.len() > COLUMNS {
        return Ok(None);
    }
    let mut columns = Seq::new(alloc);
    'places: for place in 0..rows.len() {
        match at_place(rows, place as u32) {
            Some(k) => columns.push(rows[k].column.copy(alloc)?)?,
            None => return Ok(None),
        }
    }
    Ok(Some(columns))
}

// Which of the rows tells the column at that place.
fn at_place(rows: &[ColumnRow], place: u32) -> Option<usize>
    ensures { result ≡ row_at place rows.now }
{
    rows.iter().position(|row| row.place == place)
}

// The indexes that the rows tell, over these tables.
fn indexes_told(
    alloc: Global,
    tables: &[StoredTable],
    rows: &[CatalogEntry],
) -> Result<Vec<IndexSchema>, Refusal>
    ensures { TellsPage (λ indexes. indexes.items) (each (index_told tables.now) (index_rows rows.now)) result }
{
    let mut indexes = Vec::new(alloc);
    let places = places_of(alloc, tables)?;
    for told in rows {
        if let Some(row) = index_row(told) {
            indexes.push(index_told(alloc, tables, &places, told.page, row)?)?;
        }
    }
    Ok(indexes)
}

// An index's row.
fn index_row(told: &CatalogEntry) -> Option<&IndexRow>
    ensures { MatchOption result (as_index told.now.page told.now.row ≡ None)
        (λ row. as_index told.now.page told.now.row ≡ Some (told.now.page, row.now)) }
{
    match &told.row {
        CatalogRow::Table(_) => None,
        CatalogRow::Column(_) => None,
        CatalogRow::Index(row) => Some(row),
    }
}

// The index of a row that stands on that page.
fn index_told(
    alloc: Global,
    tables: &[StoredTable],
    places: &Places,
    page: u32,
    row: &IndexRow,
) -> Result<IndexSchema, Refusal>
    requires { ArePlaces tables.now places.now }
    ensures { TellsPage (λ index. index) (index_told tables.now (page, row.now)) result }
{
    let Some(table) = places.get(&row.table) else {
        return Err(broken(page));
    };
    let Some(column) = tables[*table].columns.as_slice().get(row.place as usize) else {
        return Err(broken(page));
    };
    Ok(IndexSchema {
        name: row.name.copy(alloc)?,
        table: row.table.copy(alloc)?,
        column: column.name.copy(alloc)?,
    })
}

// The place of the first table of that name.
fn find(tables: &[StoredTable], name: &Name) -> Option<usize>
    ensures { result ≡ table_place name.now tables.now }
{
    tables.iter().position(|table| table.name == *name)
}
