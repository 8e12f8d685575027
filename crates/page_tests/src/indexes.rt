//! Tables that keep indexes: whatever is done to the rows, an index answers those of a range.

use crate::support::{
    are_short, become_short, index_over, letters, make_table, name, table_of, zero_pages,
};
use pager::{EditPager, MemPager, Pager, Stop, Tree};
use relation::{Placed, RowChange, delete, insert, open, ranged, rows, update};
use retro_base::{Failed, Refusal};
use std::alloc::{AllocError, Global};
use std::test::Fail;
use tree_index::TreeIndex;
use values::{Kind, Row, Seq, Value};

// How many rows are inserted, half of them before the first index is made.
const ROWS: u32 = 600;

// Ranges of integers and of texts of so many letters.
const INTEGERS: [(i64, i64); 7] = [
    (0, 49),
    (10, 10),
    (1000, 1049),
    (20, 1010),
    (50, 999),
    (-9, -1),
    (30, 20),
];

const LENGTHS: [(usize, usize); 5] = [(0, 200), (3, 3), (2, 5), (6, 199), (200, 200)];

// Every third row changes, and every fourth is taken out behind that.
fn changes(number: u64) -> bool {
    number % 3 == 0
}

fn goes(number: u64) -> bool {
    number % 4 == 0
}

// The integer of a row as it is inserted, and how many letters its text has.
fn first_integer(number: u64) -> i64 {
    (number.wrapping_mul(7) % 50) as i64
}

fn first_length(number: u64) -> usize {
    (number % 7) as usize
}

// The same after the changes: a row that changes grows, so that it leaves its page.
fn integer_of(number: u64) -> i64 {
    let first = first_integer(number);
    if changes(number) {
        first.saturating_add(1000)
    } else {
        first
    }
}

fn length_of(number: u64) -> usize {
    if changes(number) {
        200
    } else {
        first_length(number)
    }
}

fn row_of(alloc: Global, integer: i64, length: usize) -> Result<Row, AllocError> {
    let mut row = Seq::new(alloc);
    row.push(Value::Int(integer))?;
    row.push(letters(alloc, length.min(200))?)?;
    Ok(row)
}

// Inserts the rows of these numbers into t.
fn insert_from<I: Tree, P: EditPager>(
    alloc: Global,
    pager: &mut P,
    from: u32,
    to: u32,
) -> Result<(), Stop<P::Fault>> {
    let mut rows = Vec::new(alloc);
    for number in from..to {
        let number = u64::from(number);
        rows.push(row_of(alloc, first_integer(number), first_length(number))?)?;
    }
    if !are_short(&rows) {
        return Err(Stop::Refused(Refusal::BadSizes));
    }
    let catalog = open(alloc, pager)?;
    insert::<I, P>(alloc, pager, table_of(alloc, &catalog, b"t")?, &rows)
}

// Makes an index over the column at that place of t.
fn index_at<I: Tree, P: EditPager>(
    alloc: Global,
    pager: &mut P,
    index: &[u8],
    place: u32,
) -> Result<(), Stop<P::Fault>> {
    let index = name(alloc, index)?;
    let catalog = open(alloc, pager)?;
    index_over::<I, P>(
        alloc,
        pager,
        &index,
        table_of(alloc, &catalog, b"t")?,
        place,
    )
}

// The changes of those rows that change.
fn changes_of(alloc: Global, rows: Vec<Placed>) -> Result<Vec<RowChange>, AllocError> {
    let mut all = Vec::new(alloc);
    for was in rows {
        if changes(was.number) {
            let row = row_of(alloc, integer_of(was.number), length_of(was.number))?;
            all.push(RowChange { was, row })?;
        }
    }
    Ok(all)
}

fn change_rows<I: Tree, P: EditPager>(alloc: Global, pager: &mut P) -> Result<(), Stop<P::Fault>> {
    let catalog = open(alloc, pager)?;
    let table = table_of(alloc, &catalog, b"t")?;
    let all = rows(alloc, pager, table)?;
    let changes = changes_of(alloc, all)?;
    if !become_short(&changes) {
        return Err(Stop::Refused(Refusal::BadSizes));
    }
    update::<I, P>(alloc, pager, table, changes)
}

fn delete_rows<I: Tree, P: EditPager>(alloc: Global, pager: &mut P) -> Result<(), Stop<P::Fault>> {
    let catalog = open(alloc, pager)?;
    let table = table_of(alloc, &catalog, b"t")?;
    let mut gone = rows(alloc, pager, table)?;
    gone.retain(|placed| goes(placed.number));
    delete::<I, P>(alloc, pager, table, &gone)
}

// A store with t(a INT, b TEXT), an index over each column, and all that is done to its rows.
fn store<I: Tree>(alloc: Global) -> Result<MemPager, Stop<Failed>> {
    let mut pager = zero_pages(alloc, 400, &[])?;
    make_table(alloc, &mut pager, b"t", &[Kind::Int, Kind::Text])?;
    insert_from::<I, MemPager>(alloc, &mut pager, 0, ROWS / 2)?;
    index_at::<I, MemPager>(alloc, &mut pager, b"i", 0)?;
    index_at::<I, MemPager>(alloc, &mut pager, b"j", 1)?;
    insert_from::<I, MemPager>(alloc, &mut pager, ROWS / 2, ROWS)?;
    change_rows::<I, MemPager>(alloc, &mut pager)?;
    delete_rows::<I, MemPager>(alloc, &mut pager)?;
    Ok(pager)
}

// The rows of a range, by the index at that place of the table's.
fn found<I: Tree, P: Pager>(
    alloc: Global,
    pager: &mut P,
    place: usize,
    low: &Value,
    high: &Value,
) -> Result<Vec<u64>, Stop<P::Fault>> {
    let catalog = open(alloc, pager)?;
    let table = table_of(alloc, &catalog, b"t")?;
    let index = *table
        .indexes
        .as_slice()
        .get(place)
        .ok_or(Refusal::UnknownName)?;
    if low.kind() != high.kind() {
        return Err(Stop::Refused(Refusal::BadWords));
    }
    let mut numbers = Vec::new(alloc);
    for placed in &ranged::<I, P>(alloc, pager, table, &index, low, high)? {
        numbers.push(placed.number)?;
    }
    Ok(numbers)
}

// The numbers of the rows that are left whose integers lie in a range, and of those whose texts do.
fn integers_between(alloc: Global, low: i64, high: i64) -> Result<Vec<u64>, AllocError> {
    let mut numbers = Vec::new(alloc);
    for number in 0..u64::from(ROWS) {
        let integer = integer_of(number);
        if !goes(number) && low <= integer && integer <= high {
            numbers.push(number)?;
        }
    }
    Ok(numbers)
}

fn lengths_between(alloc: Global, low: usize, high: usize) -> Result<Vec<u64>, AllocError> {
    let mut numbers = Vec::new(alloc);
    for number in 0..u64::from(ROWS) {
        let length = length_of(number);
        if !goes(number) && low <= length && length <= high {
            numbers.push(number)?;
        }
    }
    Ok(numbers)
}

// How many ranges the indexes of the store answer right.
fn right<I: Tree>(alloc: Global) -> Result<usize, Stop<Failed>> {
    let mut pager = store::<I>(alloc)?;
    let mut right: usize = 0;
    for (low, high) in INTEGERS {
        let (least, most) = (Value::Int(low), Value::Int(high));
        if found::<I, MemPager>(alloc, &mut pager, 0, &least, &most)?
            == integers_between(alloc, low, high)?
        {
            right = right.saturating_add(1);
        }
    }
    for (low, high) in LENGTHS {
        let (least, most) = (
            letters(alloc, low.min(200))?,
            letters(alloc, high.min(200))?,
        );
        if found::<I, MemPager>(alloc, &mut pager, 1, &least, &most)?
            == lengths_between(alloc, low, high)?
        {
            right = right.saturating_add(1);
        }
    }
    Ok(right)
}

#[test]
fn trees_follow_their_table(rt: HostRuntime) -> Result<(), Fail> {
    assert!(rt; right::<TreeIndex>(rt.alloc()) == Ok(12));
    Ok(())
}
