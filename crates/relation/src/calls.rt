//! The calls: each that edits drafts what it does, and then makes the edits.

ghost use Rattle.std.specs.Prelude.{◌≡◌, ◌<◌, ◌≤◌, [], All, IfOk, length};
ghost use Rattle.retro_base.specs.declared.limits.TheConstants.{COLUMNS};
ghost use Rattle.pager.specs.Stop.{Accounts, Answers, Makes, OnlyReads};
ghost use Rattle.heap_file.specs.HeapPage.{IsShort};
ghost use Rattle.heap_file.specs.Sieving.{AllPass};
ghost use Rattle.heap_file.specs.Work.{next_of};
ghost use Rattle.values.specs.Value.{kind_of};
ghost use Rattle.relation.specs.Catalog.{HaveFewColumns, catalog};
ghost use Rattle.relation.specs.Work.{AllPlacedFit, created, ranged_at, ranged_by, rows_at, rows_by, shown};
ghost use Rattle.relation.specs.Work.{table_deleted, table_indexed, table_inserted, table_updated};
ghost use Rattle.relation.specs.declared.drafting.RowChange.{RowChange};

use crate::catalog::{Catalog, StoredIndex, StoredTable, read_catalog};
use crate::drafting::{self, RowChange};
use crate::ranging;
use heap_file::{Everything, Placed, Sieve};
use pager::{Draft, EditPager, Index, Pager, Stop, Tree};
use sql_tree::Column;
use std::alloc::Global;
use values::{Name, Row, Value};

/// The catalog, read once for all calls that follow until a table or an index is made.
pub fn open<P: Pager>(alloc: Global, pager: &mut P) -> Result<Catalog, Stop<P::Fault>>
    ensures catalog { Answers (λ catalog. catalog) (P.tells pager.new) (λ pages. catalog (P.size pager.old) pages)
        result }
    ensures few { IfOk result (λ catalog. HaveFewColumns catalog.tables) }
    ensures only_reads { OnlyReads P.tells P.goes P.size P.faults pager.old pager.new result }
{
    let draft = Draft::new(alloc, pager.size());
    read_catalog(alloc, pager, &draft)
}

/// The rows of a table, in rising number, each with the page where it stands.
pub fn rows<P: Pager>(
    alloc: Global,
    pager: &mut P,
    table: &StoredTable,
) -> Result<Vec<Placed>, Stop<P::Fault>>
    ensures rows { Answers (λ rows. rows.items) (P.tells pager.new)
        (λ pages. rows_at (P.size pager.old) pages table.now) result }
    ensures fitting { IfOk result (λ rows. AllPlacedFit table.now.columns rows.items) }
    ensures only_reads { OnlyReads P.tells P.goes P.size P.faults pager.old pager.new result }
{
    rows_by(alloc, pager, table, Everything)
}

/// The rows of a table that pass, in rising number, each with the page where it stands. No other row is held for longer
/// than its page. Refused where a row does not fit the columns, passing or not.
pub fn rows_by<S: Sieve + Drop, P: Pager>(
    alloc: Global,
    pager: &mut P,
    table: &StoredTable,
    sieve: S,
) -> Result<Vec<Placed>, Stop<P::Fault>>
    ensures rows { Answers (λ rows. rows.items) (P.tells pager.new)
        (λ pages. rows_by (S.passes sieve) (P.size pager.old) pages table.now) result }
    ensures passed { IfOk result (λ rows. AllPass (S.passes sieve) rows.items) }
    ensures fitting { IfOk result (λ rows. AllPlacedFit table.now.columns rows.items) }
    ensures only_reads { OnlyReads P.tells P.goes P.size P.faults pager.old pager.new result }
{
    let draft = Draft::new(alloc, pager.size());
    let (rows, _) = drafting::rows_by(alloc, pager, &draft, table, sieve)?;
    Ok(rows)
}

/// Shows each row of a table to a test, page by page, and gives the test back. No row is held for longer than its page
/// but those that pass, which are let go at the end. Refused where a row does not fit the columns, passing or not.
pub fn show_rows<S: Sieve + Drop, P: Pager>(
    alloc: Global,
    pager: &mut P,
    table: &StoredTable,
    sieve: S,
) -> Result<S, Stop<P::Fault>>
    ensures shown { (start : S) → S.met start [] sieve → Answers (λ after. after) (P.tells pager.new)
        (λ pages. shown (S.passes sieve) (S.met start) (P.size pager.old) pages table.now) result }
    ensures only_reads { OnlyReads P.tells P.goes P.size P.faults pager.old pager.new result }
{
    let draft = Draft::new(alloc, pager.size());
    let (_, after) = drafting::rows_by(alloc, pager, &draft, table, sieve)?;
    Ok(after)
}

/// The rows of a table whose value in the column of one of its indexes is at least `low` and at most `high`, in rising
/// number, each with the page where it stands: those alone that the index lists are read.
pub fn ranged<I: Index, P: Pager>(
    alloc: Global,
    pager: &mut P,
    table: &StoredTable,
    index: &StoredIndex,
    low: &Value,
    high: &Value,
) -> Result<Vec<Placed>, Stop<P::Fault>>
    requires { kind_of low.now ≡ kind_of high.now }
    ensures ranged { Answers (λ rows. rows.items) (P.tells pager.new)
        (λ pages. ranged_at I.ranged (P.size pager.old) pages table.now index.now low.now high.now) result }
    ensures fitting { IfOk result (λ rows. AllPlacedFit table.now.columns rows.items) }
    ensures only_reads { OnlyReads P.tells P.goes P.size P.faults pager.old pager.new result }
{
    ranged_by::<I, Everything, P>(alloc, pager, table, index, low, high, Everything)
}

/// Those of these rows that pass. Refused where a row does not fit the columns, passing or not.
pub fn ranged_by<I: Index, S: Sieve + Drop, P: Pager>(
    alloc: Global,
    pager: &mut P,
    table: &StoredTable,
    index: &StoredIndex,
    low: &Value,
    high: &Value,
    sieve: S,
) -> Result<Vec<Placed>, Stop<P::Fault>>
    requires { kind_of low.now ≡ kind_of high.now }
    ensures ranged { Answers (λ rows. rows.items) (P.tells pager.new)
        (λ pages. ranged_by (S.passes sieve) I.ranged (P.size pager.old) pages table.now index.now low.now high.now)
        result }
    ensures passed { IfOk result (λ rows. AllPass (S.passes sieve) rows.items) }
    ensures fitting { IfOk result (λ rows. AllPlacedFit table.now.columns rows.items) }
    ensures only_reads { OnlyReads P.tells P.goes P.size P.faults pager.old pager.new result }
{
    let draft = Draft::new(alloc, pager.size());
    ranging::ranged_by::<I, S, P>(alloc, pager, &draft, table, index, low, high, sieve)
}

/// The next row number of a table.
pub fn next_number<P: Pager>(
    alloc: Global,
    pager: &mut P,
    table: &StoredTable,
) -> Result<u64, Stop<P::Fault>>
    ensures next { Answers (λ number. number) (P.tells pager.new)
        (λ pages. next_of (P.size pager.old) pages table.now.first) result }
    ensures only_reads { OnlyReads P.tells P.goes P.size P.faults pager.old pager.new result }
{
    let draft = Draft::new(alloc, pager.size());
    heap_file::drafting::next_number(alloc, pager, &draft, table.first)
}

/// Makes a table without rows. Its name is to be a new one, and its columns are 1 to 16 with different names. Refused
/// before the first edit where more pages are needed than are free.
pub fn create_table<P: EditPager>(
    alloc: Global,
    pager: &mut P,
    name: &Name,
    columns: &[Column],
) -> Result<(), Stop<P::Fault>>
    requires { length columns.now ≤ COLUMNS }
    ensures created { Makes (λ u. u) (P.tells pager.old) (P.tells pager.new)
        (λ pages. created (P.size pager.old) pages name.now columns.now) result }
    ensures accounts { Accounts P.goes P.size P.faults pager.old pager.new result }
{
    let mut draft = Draft::new(alloc, pager.size());
    drafting::create_table(alloc, pager, &mut draft, name, columns)?;
    draft.write(pager)?;
    Ok(())
}

/// Makes an index over the column at that place of a table, with an entry for each row that the table has. Its name is
/// to be a new one. Refused before the first edit where more pages are needed than are free.
pub fn create_index<I: Tree, P: EditPager>(
    alloc: Global,
    pager: &mut P,
    name: &Name,
    table: &StoredTable,
    place: u32,
) -> Result<(), Stop<P::Fault>>
    requires { place < length table.now.columns }
    ensures indexed { Makes (λ u. u) (P.tells pager.old) (P.tells pager.new)
        (table_indexed I.made I.added (P.size pager.old) name.now table.now place) result }
    ensures accounts { Accounts P.goes P.size P.faults pager.old pager.new result }
{
    let mut draft = Draft::new(alloc, pager.size());
    drafting::create_index::<I, P>(alloc, pager, &mut draft, name, table, place)?;
    draft.write(pager)?;
    Ok(())
}

/// Adds rows to a table, in order, under the next row numbers, and to its indexes. Each row is to have one value of
/// each column's kind. Refused before the first edit where more pages are needed than are free.
pub fn insert<I: Index, P: EditPager>(
    alloc: Global,
    pager: &mut P,
    table: &StoredTable,
    rows: &[Row],
) -> Result<(), Stop<P::Fault>>
    requires { All IsShort rows.now }
    ensures inserted { Makes (λ u. u) (P.tells pager.old) (P.tells pager.new)
        (table_inserted I.added (P.size pager.old) table.now rows.now) result }
    ensures accounts { Accounts P.goes P.size P.faults pager.old pager.new result }
{
    let mut draft = Draft::new(alloc, pager.size());
    drafting::insert::<I, P>(alloc, pager, &mut draft, table, rows)?;
    draft.write(pager)?;
    Ok(())
}

/// Changes rows of a table, in order, and its indexes with them: each row stands on its page under its number, as
/// `rows` or `ranged` told, and becomes this. A row that does not stand there is refused as a page that is broken.
/// Refused before the first edit where more pages are needed than are free.
pub fn update<I: Index, P: EditPager>(
    alloc: Global,
    pager: &mut P,
    table: &StoredTable,
    changes: Vec<RowChange>,
) -> Result<(), Stop<P::Fault>>
    requires { All (λ (change : RowChange). IsShort change.row) changes.items }
    ensures updated { Makes (λ u. u) (P.tells pager.old) (P.tells pager.new)
        (table_updated I.added I.removed (P.size pager.old) table.now changes.items) result }
    ensures accounts { Accounts P.goes P.size P.faults pager.old pager.new result }
{
    let mut draft = Draft::new(alloc, pager.size());
    drafting::update::<I, P>(alloc, pager, &mut draft, table, changes)?;
    draft.write(pager)?;
    Ok(())
}

/// Takes rows out of a table, in order, each of the page where it stands, as `rows` or `ranged` told, and their entries
/// out of its indexes. A row that does not stand there is refused as a page that is broken.
pub fn delete<I: Index, P: EditPager>(
    alloc: Global,
    pager: &mut P,
    table: &StoredTable,
    rows: &[Placed],
) -> Result<(), Stop<P::Fault>>
    ensures deleted { Makes (λ u. u) (P.tells pager.old) (P.tells pager.new)
        (table_deleted I.removed (P.size pager.old) table.now rows.now) result }
    ensures accounts { Accounts P.goes P.size P.faults pager.old pager.new result }
{
    let mut draft = Draft::new(alloc, pager.size());
    drafting::delete::<I, P>(alloc, pager, &mut draft, table, rows)?;
    draft.write(pager)?;
    Ok(())
}
