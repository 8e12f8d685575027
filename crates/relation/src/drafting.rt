//! The calls on a draft: no page is edited before the draft is written.

ghost use Rattle.std.specs.List.{zip};
ghost use Rattle.std.specs.Prelude.{◌≡◌, ◌<◌, ◌≤◌, [], All, IfOk, IfSome, Option, length, map};
ghost use Rattle.retro_base.specs.declared.limits.TheConstants.{COLUMNS};
ghost use Rattle.pager.specs.Draft.{Drafts, Reads, drafted};
ghost use Rattle.pager.specs.Pages.{Pages};
ghost use Rattle.pager.specs.Stop.{OnlyDrafts, OnlyReads};
ghost use Rattle.heap_file.specs.Chain.{HoldsStill, IsWritable};
ghost use Rattle.heap_file.specs.HeapPage.{IsShort};
ghost use Rattle.heap_file.specs.Sieving.{AllPass, HasMet};
ghost use Rattle.heap_file.specs.declared.chain.Link.{Link};
ghost use Rattle.relation.specs.declared.catalog.TheConstants.{CATALOG};
ghost use Rattle.relation.specs.declared.drafting.RowChange.{RowChange};
ghost use Rattle.relation.specs.declared.listing.Moved.{Moved};
ghost use Rattle.relation.specs.CatalogRow.{row_values};
ghost use Rattle.relation.specs.Work.{AllPlacedFit, all_added, all_changed, all_placed, all_removed, created, shown_by};
ghost use Rattle.relation.specs.Work.{entries_at, row_changes, rows_at, rows_by, rows_of_table, standing};
ghost use Rattle.relation.specs.Work.{table_deleted, table_indexed, table_inserted, table_updated};

use crate::catalog::{CATALOG, StoredTable};
use crate::listing::{EntryEdit, Moved, edit_entries, entries_of, in_order, list_rows, move_rows};
use crate::row::{column_values, index_values, table_values};
use crate::sieving::Fitting;
use heap_file::drafting::{self, Cursor};
use heap_file::{Everything, Link, Placed, Sieve};
use pager::{Draft, Found, Index, Pager, Stop, Tree};
use sql_tree::Column;
use std::alloc::{AllocError, Global};
use values::{Duplicate, Name, Row};

/// A row as it stands, and what it becomes.
#[derive(Drop)]
pub struct RowChange {
    pub was: Placed,
    pub row: Row,
}

/// The rows of a table, in rising number.
pub fn rows<P: Pager>(
    alloc: Global,
    pager: &mut P,
    draft: &Draft,
    table: &StoredTable,
) -> Result<Vec<Placed>, Stop<P::Fault>>
    requires { draft.now.size ≡ P.size pager.old }
    ensures rows { Reads (λ rows. rows.items) (P.tells pager.new) draft.now.list
        (λ pages. rows_at draft.now.size pages table.now) result }
    ensures fitting { IfOk result (λ rows. AllPlacedFit table.now.columns rows.items) }
    ensures only_reads { OnlyReads P.tells P.goes P.size P.faults pager.old pager.new result }
{
    let (rows, _) = rows_by(alloc, pager, draft, table, Everything)?;
    Ok(rows)
}

/// The rows of a table that pass, in rising number, and how the test stands behind all of them. Refused where a row
/// does not fit the columns, passing or not.
pub fn rows_by<S: Sieve + Drop, P: Pager>(
    alloc: Global,
    pager: &mut P,
    draft: &Draft,
    table: &StoredTable,
    sieve: S,
) -> Result<(Vec<Placed>, S), Stop<P::Fault>>
    requires { draft.now.size ≡ P.size pager.old }
    ensures rows { Reads (λ found. found.0.items) (P.tells pager.new) draft.now.list
        (λ pages. rows_by (S.passes sieve) draft.now.size pages table.now) result }
    ensures passed { IfOk result (λ found. AllPass (S.passes sieve) found.0.items) }
    ensures fitting { IfOk result (λ found. AllPlacedFit table.now.columns found.0.items) }
    ensures met { (start : S) → S.met start [] sieve
        → IfOk result (λ found. HasMet (shown_by table.now (λ rows. S.met start rows found.1)) (P.tells pager.new)
        draft.now table.now.first []) }
    ensures only_reads { OnlyReads P.tells P.goes P.size P.faults pager.old pager.new result }
{
    let columns = table.columns.as_slice();
    let mut fitting = Fitting { columns, sieve };
    let rows = drafting::scan_by(alloc, pager, draft, table.first, &mut fitting)?;
    Ok((rows, fitting.sieve))
}

/// Drafts a table without rows.
pub fn create_table<P: Pager>(
    alloc: Global,
    pager: &mut P,
    draft: &mut Draft,
    name: &Name,
    columns: &[Column],
) -> Result<(), Stop<P::Fault>>
    requires size { draft.old.size ≡ P.size pager.old }
    requires few { length columns.now ≤ COLUMNS }
    ensures created { Drafts (λ u. u) (P.tells pager.new) draft.old.list draft.new.list
        (λ pages. created draft.old.size pages name.now columns.now) result }
    ensures only_drafts { OnlyDrafts P.tells P.goes P.size P.faults pager.old pager.new result }
    ensures size { draft.new.size ≡ draft.old.size }
{
    let first = drafting::make(alloc, pager, draft)?;
    let rows = rows_of_table(alloc, name, first, columns)?;
    add_to_catalog(alloc, pager, draft, &rows)
}

// The catalog's rows of a table.
fn rows_of_table(
    alloc: Global,
    name: &Name,
    first: u32,
    columns: &[Column],
) -> Result<Vec<Row>, AllocError>
    requires { length columns.now ≤ COLUMNS }
    ensures rows { IfOk result (λ rows. rows.items ≡ map row_values (rows_of_table name.now first columns.now)) }
    ensures short { IfOk result (λ rows. All IsShort rows.items) }
{
    let mut rows = Vec::new(alloc);
    rows.push(table_values(alloc, name, first)?)?;
    for (place, column) in columns.iter().enumerate() {
        rows.push(column_values(alloc, name, place as u32, column)?)?;
    }
    Ok(rows)
}

/// Drafts an index over the column at that place of a table: its root page, its row in the catalog, and an entry for
/// each row of the table.
pub fn create_index<I: Tree, P: Pager>(
    alloc: Global,
    pager: &mut P,
    draft: &mut Draft,
    name: &Name,
    table: &StoredTable,
    place: u32,
) -> Result<(), Stop<P::Fault>>
    requires size { draft.old.size ≡ P.size pager.old }
    requires place { place < length table.now.columns }
    ensures indexed { Drafts (λ u. u) (P.tells pager.new) draft.old.list draft.new.list
        (table_indexed I.made I.added draft.old.size name.now table.now place) result }
    ensures only_drafts { OnlyDrafts P.tells P.goes P.size P.faults pager.old pager.new result }
    ensures size { draft.new.size ≡ draft.old.size }
{
    let entries = entries_at(alloc, pager, draft, table, place)?;
    let root = make_root::<I, P>(alloc, pager, draft)?;
    let row = index_values(alloc, name, &table.name, place, root)?;
    add_to_catalog(alloc, pager, draft, &[row])?;
    edit_entries::<I, P>(alloc, pager, draft, EntryEdit::Add, root, &entries)
}

// The entries of a table's rows in an index over the column at that place, in order of value and then of row number.
fn entries_at<P: Pager>(
    alloc: Global,
    pager: &mut P,
    draft: &Draft,
    table: &StoredTable,
    place: u32,
) -> Result<Vec<Found>, Stop<P::Fault>>
    requires { draft.now.size ≡ P.size pager.old }
    ensures entries { Reads (λ entries. entries.items) (P.tells pager.new) draft.now.list
        (λ pages. entries_at draft.now.size pages table.now place) result }
    ensures only_reads { OnlyReads P.tells P.goes P.size P.faults pager.old pager.new result }
{
    let rows = rows(alloc, pager, draft, table)?;
    Ok(in_order(entries_of(alloc, place, &rows)?)?)
}

// Drafts rows at the end of the catalog, in order.
fn add_to_catalog<P: Pager>(
    alloc: Global,
    pager: &mut P,
    draft: &mut Draft,
    rows: &[Row],
) -> Result<(), Stop<P::Fault>>
    requires size { draft.old.size ≡ P.size pager.old }
    requires rows { All IsShort rows.now }
    ensures added { Drafts (λ u. u) (P.tells pager.new) draft.old.list draft.new.list
        (all_added draft.old.size CATALOG rows.now) result }
    ensures only_drafts { OnlyDrafts P.tells P.goes P.size P.faults pager.old pager.new result }
    ensures size { draft.new.size ≡ draft.old.size }
{
    add_rows(alloc, pager, draft, CATALOG, rows)?;
    Ok(())
}

// Drafts an index without entries, and answers its root page.
fn make_root<I: Index, P: Pager>(
    alloc: Global,
    pager: &mut P,
    draft: &mut Draft,
) -> Result<u32, Stop<P::Fault>>
    requires { draft.old.size ≡ P.size pager.old }
    ensures made { Drafts (λ root. root) (P.tells pager.new) draft.old.list draft.new.list (I.made draft.old.size)
        result }
    ensures only_drafts { OnlyDrafts P.tells P.goes P.size P.faults pager.old pager.new result }
    ensures size { draft.new.size ≡ draft.old.size }
{
    let index = I::make_in(alloc, pager, draft)?;
    Ok(index.root())
}

/// Drafts rows at the end of a table, in order, and their entries in its indexes.
pub fn insert<I: Index, P: Pager>(
    alloc: Global,
    pager: &mut P,
    draft: &mut Draft,
    table: &StoredTable,
    rows: &[Row],
) -> Result<(), Stop<P::Fault>>
    requires size { draft.old.size ≡ P.size pager.old }
    requires rows { All IsShort rows.now }
    ensures inserted { Drafts (λ u. u) (P.tells pager.new) draft.old.list draft.new.list
        (table_inserted I.added draft.old.size table.now rows.now) result }
    ensures only_drafts { OnlyDrafts P.tells P.goes P.size P.faults pager.old pager.new result }
    ensures size { draft.new.size ≡ draft.old.size }
{
    let placed = add_rows(alloc, pager, draft, table.first, rows)?;
    let indexes = table.indexes.as_slice();
    list_rows::<I, P>(alloc, pager, draft, EntryEdit::Add, indexes, &placed)
}

// Drafts rows at the end of the table that begins with that page, in order, and answers where they stand.
fn add_rows<P: Pager>(
    alloc: Global,
    pager: &mut P,
    draft: &mut Draft,
    first: u32,
    rows: &[Row],
) -> Result<Vec<Placed>, Stop<P::Fault>>
    requires size { draft.old.size ≡ P.size pager.old }
    requires rows { All IsShort rows.now }
    ensures placed { Drafts (λ placed. placed.items) (P.tells pager.new) draft.old.list draft.new.list
        (all_placed draft.old.size first rows.now) result }
    ensures only_drafts { OnlyDrafts P.tells P.goes P.size P.faults pager.old pager.new result }
    ensures size { draft.new.size ≡ draft.old.size }
{
    let spots = drafting::add_all(alloc, pager, draft, first, rows)?;
    Ok(standing(alloc, rows, &spots)?)
}

// Rows with where they stand.
fn standing(alloc: Global, rows: &[Row], spots: &[(u64, u32)]) -> Result<Vec<Placed>, AllocError>
    ensures { IfOk result (λ placed. placed.items ≡ standing (zip rows.now spots.now)) }
{
    let mut placed = Vec::with_capacity(alloc, rows.len())?;
    for (row, spot) in rows.iter().zip(spots) {
        let (number, page) = *spot;
        let row = row.copy(alloc)?;
        placed.push(Placed { number, page, row })?;
    }
    Ok(placed)
}

/// Drafts that rows of a table change, in order, each where it stands, and that the table's indexes follow.
pub fn update<I: Index, P: Pager>(
    alloc: Global,
    pager: &mut P,
    draft: &mut Draft,
    table: &StoredTable,
    changes: Vec<RowChange>,
) -> Result<(), Stop<P::Fault>>
    requires size { draft.old.size ≡ P.size pager.old }
    requires rows { All (λ (change : RowChange). IsShort change.row) changes.items }
    ensures updated { Drafts (λ u. u) (P.tells pager.new) draft.old.list draft.new.list
        (table_updated I.added I.removed draft.old.size table.now changes.items) result }
    ensures only_drafts { OnlyDrafts P.tells P.goes P.size P.faults pager.old pager.new result }
    ensures size { draft.new.size ≡ draft.old.size }
{
    let moves = change_rows(alloc, pager, draft, table.first, changes)?;
    move_rows::<I, P>(alloc, pager, draft, table.indexes.as_slice(), &moves)
}

// Drafts that rows of the table that begins with that page change, in order, and answers what became of them.
fn change_rows<P: Pager>(
    alloc: Global,
    pager: &mut P,
    draft: &mut Draft,
    first: u32,
    changes: Vec<RowChange>,
) -> Result<Vec<Moved>, Stop<P::Fault>>
    requires size { draft.old.size ≡ P.size pager.old }
    requires rows { All (λ (change : RowChange). IsShort change.row) changes.items }
    ensures changed { Drafts (λ moves. moves.items) (P.tells pager.new) draft.old.list draft.new.list
        (all_changed draft.old.size first changes.items) result }
    ensures only_drafts { OnlyDrafts P.tells P.goes P.size P.faults pager.old pager.new result }
    ensures size { draft.new.size ≡ draft.old.size }
{
    let mut moves = Vec::new(alloc);
    let mut known = None;
    for change in changes {
        let (moved, after) = change_row(alloc, pager, draft, first, known, change)?;
        moves.push(moved)?;
        known = after;
    }
    Ok(moves)
}

// Drafts that a row changes where it stands; its page is not read where it is known already. Answers what became of the
// row, and its page where that is known then.
fn change_row<P: Pager>(
    alloc: Global,
    pager: &mut P,
    draft: &mut Draft,
    first: u32,
    known: Option<Link>,
    change: RowChange,
) -> Result<(Moved, Option<Link>), Stop<P::Fault>>
    requires size { draft.old.size ≡ P.size pager.old }
    requires known { IfSome known (IsWritable draft.old.size) }
    requires row { IsShort change.row }
    ensures changed { Drafts (λ (done : Moved × Option Link). done.0) (P.tells pager.new) draft.old.list draft.new.list
        (λ pages answer. HoldsStill draft.old.size pages known → row_changes draft.old.size first change pages answer)
        result }
    ensures stands { (base shown : Pages) → P.tells pager.new base shown
        → HoldsStill draft.old.size (drafted shown draft.old.list) known
        → IfOk result (λ done. HoldsStill draft.old.size (drafted shown draft.new.list) done.1) }
    ensures writable { IfOk result (λ done. IfSome done.1 (IsWritable draft.old.size)) }
    ensures only_drafts { OnlyDrafts P.tells P.goes P.size P.faults pager.old pager.new result }
    ensures size { draft.new.size ≡ draft.old.size }
{
    let RowChange { was, row } = change;
    let number = was.number;
    let link = drafting::page_at(alloc, pager, draft, known, was.page)?;
    let (page, after) = drafting::change_on(alloc, pager, draft, first, link, number, &row)?;
    let becomes = Placed { number, page, row };
    Ok((Moved { was, becomes }, after))
}

/// Drafts that rows of a table are taken out, in order, each of the page where it stands, and then their entries of the
/// table's indexes.
pub fn delete<I: Index, P: Pager>(
    alloc: Global,
    pager: &mut P,
    draft: &mut Draft,
    table: &StoredTable,
    rows: &[Placed],
) -> Result<(), Stop<P::Fault>>
    requires { draft.old.size ≡ P.size pager.old }
    ensures deleted { Drafts (λ u. u) (P.tells pager.new) draft.old.list draft.new.list
        (table_deleted I.removed draft.old.size table.now rows.now) result }
    ensures only_drafts { OnlyDrafts P.tells P.goes P.size P.faults pager.old pager.new result }
    ensures size { draft.new.size ≡ draft.old.size }
{
    remove_rows(alloc, pager, draft, table.first, rows)?;
    let indexes = table.indexes.as_slice();
    list_rows::<I, P>(alloc, pager, draft, EntryEdit::Remove, indexes, rows)
}

// Drafts that rows of the table that begins with that page are taken out, in order.
fn remove_rows<P: Pager>(
    alloc: Global,
    pager: &mut P,
    draft: &mut Draft,
    first: u32,
    rows: &[Placed],
) -> Result<(), Stop<P::Fault>>
    requires { draft.old.size ≡ P.size pager.old }
    ensures removed { Drafts (λ u. u) (P.tells pager.new) draft.old.list draft.new.list
        (all_removed draft.old.size first rows.now) result }
    ensures only_drafts { OnlyDrafts P.tells P.goes P.size P.faults pager.old pager.new result }
    ensures size { draft.new.size ≡ draft.old.size }
{
    let mut cursor = Cursor {
        page: None,
        route: None,
    };
    for placed in rows {
        cursor = drafting::remove_at(
            alloc,
            pager,
            draft,
            first,
            cursor,
            placed.page,
            placed.number,
        )?;
    }
    Ok(())
}
