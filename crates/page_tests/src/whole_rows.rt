//! A table with an index over each of its columns: what each tells of a range, as whole rows.

use crate::support::{
    are_short, become_short, encoding, index_over, letters, make_table, name, table_of, zero_pages,
};
use pager::{EditPager, MemPager, Pager, Stop, Tree};
use relation::{RowChange, delete, insert, open, ranged, rows, update};
use retro_base::{Failed, Refusal};
use std::alloc::{AllocError, Global};
use std::test::Fail;
use tree_index::TreeIndex;
use values::{Kind, Row, Seq, Value};

const ROWS: u64 = 300;

// Ranges of a column: by its place, and of integers or of texts of so many letters.
const RANGES: [(usize, i64, i64); 11] = [
    (0, 0, 49),
    (0, 10, 10),
    (0, 20, 30),
    (0, 50, 99),
    (1, 0, 200),
    (1, 3, 3),
    (1, 2, 199),
    (1, 200, 200),
    (2, 0, 2000),
    (2, 150, 1150),
    (2, 1, 0),
];

// Every third row grows, and every fourth is taken out behind that.
fn grows(number: u64) -> bool {
    number % 3 == 0
}

fn goes(number: u64) -> bool {
    number % 4 == 0
}

// A row's value in the column at that place, of a text how many letters it has, as the row is inserted.
fn first_cell(number: u64, place: usize) -> i64 {
    match place {
        0 => (number.wrapping_mul(7) % 50) as i64,
        1 => (number % 7) as i64,
        _ => (number % ROWS) as i64,
    }
}

// The same after the update: a row that grows leaves its page, and keeps its first integer.
fn cell(number: u64, place: usize) -> i64 {
    let first = first_cell(number, place);
    match place {
        1 if grows(number) => 200,
        2 if grows(number) => first.saturating_add(1000),
        _ => first,
    }
}

// The value of a column by its cell.
fn value_of(alloc: Global, place: usize, cell: i64) -> Result<Value, AllocError> {
    if place == 1 {
        return letters(alloc, usize::try_from(cell).unwrap_or(0).min(200));
    }
    Ok(Value::Int(cell))
}

fn row_of(alloc: Global, cells: [i64; 3]) -> Result<Row, AllocError> {
    let mut row = Seq::new(alloc);
    for (place, cell) in cells.iter().enumerate() {
        row.push(value_of(alloc, place, *cell)?)?;
    }
    Ok(row)
}

fn first_row(alloc: Global, number: u64) -> Result<Row, AllocError> {
    let cells = [0, 1, 2].map(|place| first_cell(number, place));
    row_of(alloc, cells)
}

fn last_row(alloc: Global, number: u64) -> Result<Row, AllocError> {
    let cells = [0, 1, 2].map(|place| cell(number, place));
    row_of(alloc, cells)
}

// Makes an index over each column of t.
fn index_all<I: Tree, P: EditPager>(alloc: Global, pager: &mut P) -> Result<(), Stop<P::Fault>> {
    for (index, place) in [(b"i", 0), (b"j", 1), (b"k", 2)] {
        let catalog = open(alloc, pager)?;
        let table = table_of(alloc, &catalog, b"t")?;
        index_over::<I, P>(alloc, pager, &name(alloc, index)?, table, place)?;
    }
    Ok(())
}

fn insert_all<I: Tree, P: EditPager>(alloc: Global, pager: &mut P) -> Result<(), Stop<P::Fault>> {
    let mut rows = Vec::new(alloc);
    for number in 0..ROWS {
        rows.push(first_row(alloc, number)?)?;
    }
    if !are_short(&rows) {
        return Err(Stop::Refused(Refusal::BadSizes));
    }
    let catalog = open(alloc, pager)?;
    insert::<I, P>(alloc, pager, table_of(alloc, &catalog, b"t")?, &rows)
}

fn grow_rows<I: Tree, P: EditPager>(alloc: Global, pager: &mut P) -> Result<(), Stop<P::Fault>> {
    let catalog = open(alloc, pager)?;
    let table = table_of(alloc, &catalog, b"t")?;
    let mut changes = Vec::new(alloc);
    for was in rows(alloc, pager, table)? {
        if grows(was.number) {
            let row = last_row(alloc, was.number)?;
            changes.push(RowChange { was, row })?;
        }
    }
    if !become_short(&changes) {
        return Err(Stop::Refused(Refusal::BadSizes));
    }
    update::<I, P>(alloc, pager, table, changes)
}

fn delete_some<I: Tree, P: EditPager>(alloc: Global, pager: &mut P) -> Result<(), Stop<P::Fault>> {
    let catalog = open(alloc, pager)?;
    let table = table_of(alloc, &catalog, b"t")?;
    let mut gone = rows(alloc, pager, table)?;
    gone.retain(|placed| goes(placed.number));
    delete::<I, P>(alloc, pager, table, &gone)
}

// A store with t(a INT, b TEXT, c INT), its indexes, and all that is done to its rows.
fn store<I: Tree>(alloc: Global) -> Result<MemPager, Stop<Failed>> {
    let mut pager = zero_pages(alloc, 400, &[])?;
    make_table(alloc, &mut pager, b"t", &[Kind::Int, Kind::Text, Kind::Int])?;
    index_all::<I, MemPager>(alloc, &mut pager)?;
    insert_all::<I, MemPager>(alloc, &mut pager)?;
    grow_rows::<I, MemPager>(alloc, &mut pager)?;
    delete_some::<I, MemPager>(alloc, &mut pager)?;
    Ok(pager)
}

// The bytes of the rows of a range, one after the other, by the index over that column.
fn bytes_told<I: Tree, P: Pager>(
    alloc: Global,
    pager: &mut P,
    place: usize,
    low: &Value,
    high: &Value,
) -> Result<Vec<u8>, Stop<P::Fault>> {
    let catalog = open(alloc, pager)?;
    let table = table_of(alloc, &catalog, b"t")?;
    let index = *table
        .indexes
        .as_slice()
        .get(place)
        .ok_or(Refusal::UnknownName)?;
    if low.kind() != high.kind() {
        return Err(Stop::Refused(Refusal::BadWords));
    }
    let mut bytes = Vec::new(alloc);
    for placed in &ranged::<I, P>(alloc, pager, table, &index, low, high)? {
        bytes.extend_from_slice(&encoding(alloc, placed.number, &placed.row)?)?;
    }
    Ok(bytes)
}

// The bytes of the rows that are left whose values lie in a range.
fn bytes_left(alloc: Global, place: usize, low: i64, high: i64) -> Result<Vec<u8>, Refusal> {
    let mut bytes = Vec::new(alloc);
    for number in 0..ROWS {
        let cell = cell(number, place);
        if !goes(number) && low <= cell && cell <= high {
            bytes.extend_from_slice(&encoding(alloc, number, &last_row(alloc, number)?)?)?;
        }
    }
    Ok(bytes)
}

// How many ranges the indexes of the store answer right.
fn right<I: Tree>(alloc: Global) -> Result<usize, Stop<Failed>> {
    let mut pager = store::<I>(alloc)?;
    let mut right: usize = 0;
    for (place, low, high) in RANGES {
        let (least, most) = (value_of(alloc, place, low)?, value_of(alloc, place, high)?);
        let told = bytes_told::<I, MemPager>(alloc, &mut pager, place, &least, &most)?;
        if told == bytes_left(alloc, place, low, high)? {
            right = right.saturating_add(1);
        }
    }
    Ok(right)
}

#[test]
fn each_index_tells_whole_rows(rt: HostRuntime) -> Result<(), Fail> {
    let alloc = rt.alloc();
    assert!(rt; right::<TreeIndex>(alloc) == Ok(11));
    Ok(())
}
