//! Tables of sixteen columns whose names are of 32 letters, and forty rows of 900 bytes.

use crate::support::{
    count, delete_all, encoding, insert_rows, make_table_of, name, next_in_t, rows_in_t,
    sixteen_values, tables_and_indexes, update_rows, zero_pages,
};
use pager::{EditPager, MemPager, Pager, Stop};
use relation::{Placed, RowChange};
use retro_base::{Failed, Refusal};
use sql_tree::Column;
use std::alloc::{AllocError, Global};
use std::test::Fail;
use values::{Kind, Row};

// Sixteen columns with names of 32 letters: twelve of integers, and four of texts.
fn wide_columns(alloc: Global) -> Result<Vec<Column>, Refusal> {
    let mut columns = Vec::new(alloc);
    for letter in b'a'..=b'p' {
        let mut letters = vec![in alloc; b'c'; 32]?;
        letters[31] = letter;
        let name = name(alloc, &letters)?;
        let kind = if letter < b'm' { Kind::Int } else { Kind::Text };
        columns.push(Column { name, kind })?;
    }
    Ok(columns)
}

// A store of 80 pages with two tables of sixteen columns, named t and u: their 34 rows take four pages of the catalog.
fn wide_tables(alloc: Global) -> Result<MemPager, Stop<Failed>> {
    let mut pager = zero_pages(alloc, 80, &[])?;
    let columns = wide_columns(alloc)?;
    make_table_of(alloc, &mut pager, b"t", &columns)?;
    make_table_of(alloc, &mut pager, b"u", &columns)?;
    Ok(pager)
}

fn long_rows(alloc: Global, count: u32, number: i64) -> Result<Vec<Row>, AllocError> {
    let mut rows = Vec::new(alloc);
    for _ in 0..count {
        rows.push(sixteen_values(alloc, number)?)?;
    }
    Ok(rows)
}

// The rows, each of which becomes one of that number.
fn changes_to(alloc: Global, rows: Vec<Placed>, number: i64) -> Result<Vec<RowChange>, AllocError> {
    let mut changes = Vec::new(alloc);
    for was in rows {
        let row = sixteen_values(alloc, number)?;
        changes.push(RowChange { was, row })?;
    }
    Ok(changes)
}

fn insert_forty<P: EditPager>(
    alloc: Global,
    pager: &mut P,
    number: i64,
) -> Result<(), Stop<P::Fault>> {
    let rows = long_rows(alloc, 40, number)?;
    insert_rows(alloc, pager, &rows)
}

fn update_all<P: EditPager>(
    alloc: Global,
    pager: &mut P,
    number: i64,
) -> Result<(), Stop<P::Fault>> {
    let rows = rows_in_t(alloc, pager)?;
    let changes = changes_to(alloc, rows, number)?;
    update_rows(alloc, pager, changes)
}

// Whether a row is of that number and of these values, by the bytes of both.
fn is(alloc: Global, placed: &Placed, number: u64, row: &Row) -> Result<bool, Refusal> {
    Ok(encoding(alloc, placed.number, &placed.row)? == encoding(alloc, number, row)?)
}

// Whether the table t has forty rows, numbered from 0 on, of the sixteen values from that integer on.
fn forty_are<P: Pager>(alloc: Global, pager: &mut P, number: i64) -> Result<bool, Stop<P::Fault>> {
    let want = sixteen_values(alloc, number)?;
    let mut count: u64 = 0;
    for placed in &rows_in_t(alloc, pager)? {
        if !is(alloc, placed, count, &want)? {
            return Ok(false);
        }
        count = count.saturating_add(1);
    }
    Ok(count == 40)
}

#[test]
fn forty_rows_of_900_bytes(rt: HostRuntime) -> Result<(), Fail> {
    let alloc = rt.alloc();
    let mut pager = wide_tables(alloc)?;
    let tables = tables_and_indexes(alloc, &mut pager);
    let inserted = insert_forty(alloc, &mut pager, 7);
    let before = forty_are(alloc, &mut pager, 7);
    let updated = update_all(alloc, &mut pager, -7);
    let after = forty_are(alloc, &mut pager, -7);
    let deleted = delete_all(alloc, &mut pager);
    let left = count(alloc, &mut pager);
    let next = next_in_t(alloc, &mut pager);
    assert!(rt; (tables, left, next) == (Ok((2, 0)), Ok(0), Ok(40)));
    assert!(rt; ([inserted, updated, deleted], [before, after]) == ([Ok(()); 3], [Ok(true); 2]));
    Ok(())
}
