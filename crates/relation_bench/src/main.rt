//! Statements on a table by name at two sizes, and catalogs of two: each costs its rows, and no more.
#![tactic(auto)]

ghost use Rattle.std.specs.Prelude.{All, IfOk};
ghost use Rattle.heap_file.specs.HeapPage.{IsShort};
ghost use Rattle.relation.specs.declared.drafting.RowChange.{RowChange};

use pager::{MemPager, Stop};
use relation::{
    Catalog, Placed, RowChange, StoredTable, create_table, delete, insert, open, rows, update,
};
use retro_base::{Failed, Page, Refusal};
use sql_tree::Column;
use std::alloc::Global;
use std::process::ExitCode;
use tree_index::TreeIndex;
use values::{Duplicate, Kind, Name, Row, Seq, Text, Value, is_name};

const PAGES: usize = 2000;

// How many rows and tables were seen.
struct Told {
    inserted: usize,
    changed: usize,
    left: usize,
    former: usize,
    tables: usize,
}

fn name_of(alloc: Global, bytes: &[u8]) -> Result<Name, Refusal> {
    if !is_name(bytes) {
        return Err(Refusal::BadWords);
    }
    Ok(Name::new(Seq::from(bytes.to_vec(alloc)?)))
}

// A row of 60 encoded bytes, of one letter: sixteen stand on a page.
fn sixty_bytes(alloc: Global, letter: u8) -> Result<Row, Refusal>
    ensures { IfOk result IsShort }
{
    if letter < b'a' || letter > b'z' {
        return Err(Refusal::BadWords);
    }
    let letters = vec![in alloc; letter; 49]?;
    let mut row = Seq::new(alloc);
    row.push(Value::Text(Text::new(Seq::from(letters))))?;
    if row_codec::encoded_length(&row) == 60 {
        Ok(row)
    } else {
        Err(Refusal::BadSizes)
    }
}

// Makes a table of that name with one column of texts.
fn make(alloc: Global, pager: &mut MemPager, name: &[u8]) -> Result<(), Stop<Failed>> {
    let kind = Kind::Text;
    let column = Column {
        name: name_of(alloc, b"a")?,
        kind,
    };
    create_table(alloc, pager, &name_of(alloc, name)?, &[column])
}

// A store with the table t.
fn store(alloc: Global) -> Result<MemPager, Stop<Failed>> {
    let pages = vec![in alloc; Page::zero(); PAGES]?;
    let mut pager = MemPager::new(alloc, pages, Vec::new(alloc));
    make(alloc, &mut pager, b"t")?;
    Ok(pager)
}

fn t(alloc: Global, catalog: &Catalog) -> Result<&StoredTable, Stop<Failed>> {
    match catalog.table(&name_of(alloc, b"t")?) {
        Some(table) => Ok(table),
        None => Err(Stop::Refused(Refusal::BadWords)),
    }
}

#[inline(never)]
fn insert_rows(
    alloc: Global,
    pager: &mut MemPager,
    table: &StoredTable,
    count: u32,
) -> Result<(), Stop<Failed>> {
    for _ in 0..count {
        let row = sixty_bytes(alloc, b'x')?;
        insert::<TreeIndex, MemPager>(alloc, pager, table, &[row])?;
    }
    Ok(())
}

#[inline(never)]
fn scan(
    alloc: Global,
    pager: &mut MemPager,
    table: &StoredTable,
) -> Result<Vec<Placed>, Stop<Failed>> {
    rows(alloc, pager, table)
}

// The rows, each of which becomes one of that letter.
fn changes_of(alloc: Global, rows: &[Placed], letter: u8) -> Result<Vec<RowChange>, Refusal>
    ensures { IfOk result (λ changes. All (λ (change : RowChange). IsShort change.row) changes.items) }
{
    let mut changes = Vec::new(alloc);
    for placed in rows {
        let was = Placed {
            number: placed.number,
            page: placed.page,
            row: placed.row.copy(alloc)?,
        };
        let row = sixty_bytes(alloc, letter)?;
        changes.push(RowChange { was, row })?;
    }
    Ok(changes)
}

#[inline(never)]
fn update_rows(
    alloc: Global,
    pager: &mut MemPager,
    table: &StoredTable,
    rows: &[Placed],
) -> Result<usize, Stop<Failed>> {
    let changes = changes_of(alloc, rows, b'y')?;
    let count = changes.len();
    update::<TreeIndex, MemPager>(alloc, pager, table, changes)?;
    Ok(count)
}

#[inline(never)]
fn update_one(
    alloc: Global,
    pager: &mut MemPager,
    table: &StoredTable,
    rows: &[Placed],
) -> Result<(), Stop<Failed>> {
    let changes = changes_of(alloc, &rows[..rows.len().min(1)], b'z')?;
    update::<TreeIndex, MemPager>(alloc, pager, table, changes)
}

#[inline(never)]
fn delete_half(
    alloc: Global,
    pager: &mut MemPager,
    table: &StoredTable,
    mut rows: Vec<Placed>,
) -> Result<(), Stop<Failed>> {
    rows.retain(|placed| placed.number % 2 == 0);
    delete::<TreeIndex, MemPager>(alloc, pager, table, &rows)
}

#[inline(never)]
fn delete_latter_half(
    alloc: Global,
    pager: &mut MemPager,
    table: &StoredTable,
    rows: &[Placed],
) -> Result<(), Stop<Failed>> {
    delete::<TreeIndex, MemPager>(alloc, pager, table, &rows[rows.len() / 2..])
}

// Makes a table for each pair of letters, until there are so many, and counts those of the catalog.
#[inline(never)]
fn catalog_of(alloc: Global, tables: usize) -> Result<usize, Stop<Failed>> {
    let mut pager = store(alloc)?;
    let mut made = 1;
    for first in b'a'..=b'z' {
        for second in b'a'..=b'z' {
            if made < tables {
                make(alloc, &mut pager, &[b't', first, second])?;
                made += 1;
            }
        }
    }
    read_catalog(alloc, &mut pager)
}

#[inline(never)]
fn read_catalog(alloc: Global, pager: &mut MemPager) -> Result<usize, Stop<Failed>> {
    Ok(open(alloc, pager)?.schema(alloc)?.tables.len())
}

fn told_of(alloc: Global, count: u32, tables: usize) -> Result<Told, Stop<Failed>> {
    let mut pager = store(alloc)?;
    let catalog = open(alloc, &mut pager)?;
    let table = t(alloc, &catalog)?;
    insert_rows(alloc, &mut pager, table, count)?;
    let all = scan(alloc, &mut pager, table)?;
    update_one(alloc, &mut pager, table, &all)?;
    let changed = update_rows(alloc, &mut pager, table, &all)?;
    let inserted = all.len();
    delete_half(alloc, &mut pager, table, all)?;
    let left = scan(alloc, &mut pager, table)?;
    delete_latter_half(alloc, &mut pager, table, &left)?;
    Ok(Told {
        inserted,
        changed,
        left: left.len(),
        former: scan(alloc, &mut pager, table)?.len(),
        tables: catalog_of(alloc, tables)?,
    })
}

fn main(rt: HostRuntime) -> ExitCode {
    for (count, tables) in [(1000, 20), (10_000, 200)] {
        let Ok(told) = told_of(rt.alloc(), count, tables) else {
            return ExitCode::FAILURE;
        };
        let Told {
            inserted,
            changed,
            left,
            former,
            tables,
        } = told;
        let shown = println!(rt;
            "{inserted} rows inserted, {changed} changed, {left} left, then {former}; {tables} tables"
        );
        if shown.is_err() {
            return ExitCode::FAILURE;
        }
    }
    ExitCode::SUCCESS
}
