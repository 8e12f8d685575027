//! A store with the table t, and the calls on it: each call of a tested crate stands in a function without clauses,
//! over any pager.

ghost use Rattle.std.specs.Prelude.{◌≤◌, ◌<◌, All, IsTrue};
ghost use Rattle.std.specs.List.{AllByRecursion};
ghost use Rattle.heap_file.specs.HeapPage.{IsShort};
ghost use Rattle.relation.specs.declared.drafting.RowChange.{RowChange};

use pager::{EditPager, MemPager, Pager, Stop, Tree};
use relation::{
    Catalog, Placed, RowChange, StoredTable, create_index, create_table, delete, insert,
    next_number, open, ranged, rows, update,
};
use retro_base::{Failed, Page, ROW_BYTES, Refusal};
use sql_tree::Column;
use std::alloc::{AllocError, Global};
use tree_index::TreeIndex;
use values::{Kind, Name, Row, Seq, Text, Value, is_name, is_text};

pub fn name(alloc: Global, bytes: &[u8]) -> Result<Name, Refusal> {
    if !is_name(bytes) {
        return Err(Refusal::BadWords);
    }
    Ok(Name::new(Seq::from(bytes.to_vec(alloc)?)))
}

// The text of so many letters x.
pub fn letters(alloc: Global, count: usize) -> Result<Value, AllocError>
    requires { count ≤ 200 }
{
    let bytes = vec![in alloc; b'x'; count]?;
    Ok(Value::Text(Text::new(Seq::from(bytes))))
}

// The text of these bytes.
pub fn text(alloc: Global, bytes: &[u8]) -> Result<Value, Refusal> {
    if !is_text(bytes) {
        return Err(Refusal::BadWords);
    }
    Ok(Value::Text(Text::new(Seq::from(bytes.to_vec(alloc)?))))
}

// Whether a row can be put into a page.
pub fn is_short(row: &Row) -> bool
    ensures { IsTrue result → IsShort row.now }
{
    !row.is_empty() && row.len() <= 16 && row_codec::encoded_length(row) <= ROW_BYTES
}

// Whether each row can.
pub fn are_short(rows: &[Row]) -> bool
    ensures { IsTrue result → All IsShort rows.now }
{
    rows.iter().all(|row| is_short(row))
}

// Whether each row can that a row becomes.
pub fn become_short(changes: &[RowChange]) -> bool
    ensures { IsTrue result → All (λ (change : RowChange). IsShort change.row) changes.now }
{
    changes.iter().all(|change| is_short(&change.row))
}

// The encoding of a row under its number. A row without values is refused, and one of more than sixteen.
pub fn encoding(alloc: Global, number: u64, row: &Row) -> Result<Vec<u8>, Refusal> {
    if row.is_empty() || row.len() > 16 {
        return Err(Refusal::BadSizes);
    }
    row_codec::encode(alloc, number, row)
}

// A row of one integer.
pub fn integer(alloc: Global, number: i64) -> Result<Row, AllocError> {
    let mut row = Seq::new(alloc);
    row.push(Value::Int(number))?;
    Ok(row)
}

// A row of five texts: four of 200 letters and one of so many.
pub fn five_texts(alloc: Global, last: usize) -> Result<Row, AllocError>
    requires { last ≤ 200 }
{
    let mut row = Seq::new(alloc);
    for _ in 0..4 {
        row.push(letters(alloc, 200)?)?;
    }
    row.push(letters(alloc, last)?)?;
    Ok(row)
}

// How many bytes the encoding of such a row takes.
pub fn bytes_of_texts(alloc: Global, last: usize) -> Result<usize, Refusal>
    requires { last ≤ 200 }
{
    Ok(encoding(alloc, 7, &five_texts(alloc, last)?)?.len())
}

// A row of sixteen values that takes 900 bytes: twelve integers from this one on, three texts of 200 letters and one of
// 175.
pub fn sixteen_values(alloc: Global, first: i64) -> Result<Row, AllocError> {
    let mut row = Seq::new(alloc);
    for more in 0..12 {
        row.push(Value::Int(first.saturating_add(more)))?;
    }
    for _ in 0..3 {
        row.push(letters(alloc, 200)?)?;
    }
    row.push(letters(alloc, 175)?)?;
    Ok(row)
}

// A store of so many zero pages. The listed calls fail.
pub fn zero_pages(alloc: Global, count: usize, failing: &[u64]) -> Result<MemPager, AllocError>
    requires { count < 2000 }
{
    let pages = vec![in alloc; Page::zero(); count]?;
    Ok(MemPager::new(alloc, pages, failing.to_vec(alloc)?))
}

// Columns of these kinds, named a, b and on.
pub fn columns_of(alloc: Global, kinds: &[Kind]) -> Result<Vec<Column>, Refusal> {
    let mut columns = Vec::new(alloc);
    let mut letter = b'a';
    for kind in kinds {
        let name = name(alloc, &[letter])?;
        columns.push(Column { name, kind: *kind })?;
        letter = letter.wrapping_add(1);
    }
    Ok(columns)
}

// Makes a table of that name with these columns.
pub fn make_table_of<P: EditPager>(
    alloc: Global,
    pager: &mut P,
    table: &[u8],
    columns: &[Column],
) -> Result<(), Stop<P::Fault>> {
    let table = name(alloc, table)?;
    if columns.len() > 16 {
        return Err(Stop::Refused(Refusal::BadSizes));
    }
    create_table(alloc, pager, &table, columns)
}

// Makes a table of that name with columns of these kinds.
pub fn make_table<P: EditPager>(
    alloc: Global,
    pager: &mut P,
    table: &[u8],
    kinds: &[Kind],
) -> Result<(), Stop<P::Fault>> {
    let columns = columns_of(alloc, kinds)?;
    make_table_of(alloc, pager, table, &columns)
}

// A store of 16 pages with t(a INT).
pub fn one_table(alloc: Global) -> Result<MemPager, Stop<Failed>> {
    let mut pager = zero_pages(alloc, 16, &[])?;
    make_table(alloc, &mut pager, b"t", &[Kind::Int])?;
    Ok(pager)
}

// Makes an index of that name over the column at that place of the table of that name.
pub fn make_index<P: EditPager>(
    alloc: Global,
    pager: &mut P,
    index: &[u8],
    table: &[u8],
    place: u32,
) -> Result<(), Stop<P::Fault>> {
    let index = name(alloc, index)?;
    let catalog = open(alloc, pager)?;
    let table = table_of(alloc, &catalog, table)?;
    index_over::<TreeIndex, P>(alloc, pager, &index, table, place)
}

// Makes an index of that name over the column at that place of a table, if the table has it.
pub fn index_over<I: Tree, P: EditPager>(
    alloc: Global,
    pager: &mut P,
    index: &Name,
    table: &StoredTable,
    place: u32,
) -> Result<(), Stop<P::Fault>> {
    if place as usize >= table.columns.len() {
        return Err(Stop::Refused(Refusal::BadSizes));
    }
    create_index::<I, P>(alloc, pager, index, table, place)
}

// How many tables there are, and how many indexes.
pub fn tables_and_indexes<P: Pager>(
    alloc: Global,
    pager: &mut P,
) -> Result<(usize, usize), Stop<P::Fault>> {
    let schema = open(alloc, pager)?.schema(alloc)?;
    Ok((schema.tables.len(), schema.indexes.len()))
}

// The table of that name of a catalog.
pub fn table_of<'a>(
    alloc: Global,
    catalog: &'a Catalog,
    table: &[u8],
) -> Result<&'a StoredTable, Refusal> {
    catalog.table(&name(alloc, table)?).ok_or(Refusal::BadWords)
}

// The table t of a catalog.
fn t(alloc: Global, catalog: &Catalog) -> Result<&StoredTable, Refusal> {
    table_of(alloc, catalog, b"t")
}

// Adds rows to the table t.
pub fn insert_rows<P: EditPager>(
    alloc: Global,
    pager: &mut P,
    rows: &[Row],
) -> Result<(), Stop<P::Fault>> {
    if !are_short(rows) {
        return Err(Stop::Refused(Refusal::BadSizes));
    }
    let catalog = open(alloc, pager)?;
    insert::<TreeIndex, P>(alloc, pager, t(alloc, &catalog)?, rows)
}

// Adds a row of one integer to the table t.
pub fn insert_integer<P: EditPager>(
    alloc: Global,
    pager: &mut P,
    number: i64,
) -> Result<(), Stop<P::Fault>> {
    let row = integer(alloc, number)?;
    insert_rows(alloc, pager, &[row])
}

// Adds the rows of the integers from the first up to the last, without it, to the table t.
pub fn insert_integers<P: EditPager>(
    alloc: Global,
    pager: &mut P,
    from: u32,
    to: u32,
) -> Result<(), Stop<P::Fault>> {
    let mut rows = Vec::new(alloc);
    for number in from..to {
        rows.push(integer(alloc, i64::from(number))?)?;
    }
    insert_rows(alloc, pager, &rows)
}

// A store of so many pages with t(a INT) and the rows of so many integers from 0 on.
pub fn integers(alloc: Global, pages: usize, count: u32) -> Result<MemPager, Stop<Failed>> {
    let mut pager = zero_pages(alloc, pages.min(1999), &[])?;
    make_table(alloc, &mut pager, b"t", &[Kind::Int])?;
    insert_integers(alloc, &mut pager, 0, count)?;
    Ok(pager)
}

// The same with the index i over a, which is made first.
pub fn indexed_integers(alloc: Global, pages: usize, count: u32) -> Result<MemPager, Stop<Failed>> {
    let mut pager = integers(alloc, pages, 0)?;
    make_index(alloc, &mut pager, b"i", b"t", 0)?;
    insert_integers(alloc, &mut pager, 0, count)?;
    Ok(pager)
}

// Adds one to the integer of each row of the table t, in one call.
pub fn raise_integers<P: EditPager>(alloc: Global, pager: &mut P) -> Result<(), Stop<P::Fault>> {
    let mut changes = Vec::new(alloc);
    for was in rows_in_t(alloc, pager)? {
        let before = first_integer(&was.row).unwrap_or(0);
        let row = integer(alloc, before.saturating_add(1))?;
        changes.push(RowChange { was, row })?;
    }
    update_rows(alloc, pager, changes)
}

// Takes all rows out of the table t, in one call.
pub fn delete_all<P: EditPager>(alloc: Global, pager: &mut P) -> Result<(), Stop<P::Fault>> {
    let rows = rows_in_t(alloc, pager)?;
    delete_rows(alloc, pager, &rows)
}

// How many rows these are, and the sum of their integers.
pub fn sum_of(rows: &[Placed]) -> (usize, i64) {
    let mut sum: i64 = 0;
    for placed in rows {
        sum = sum.saturating_add(first_integer(&placed.row).unwrap_or(0));
    }
    (rows.len(), sum)
}

// How many rows of the table t its first index tells between two integers, and the sum of these.
pub fn sum_between<P: Pager>(
    alloc: Global,
    pager: &mut P,
    low: i64,
    high: i64,
) -> Result<(usize, i64), Stop<P::Fault>> {
    let catalog = open(alloc, pager)?;
    let table = t(alloc, &catalog)?;
    let index = *table
        .indexes
        .as_slice()
        .first()
        .ok_or(Refusal::UnknownName)?;
    let (low, high) = (Value::Int(low), Value::Int(high));
    let rows = ranged::<TreeIndex, P>(alloc, pager, table, &index, &low, &high)?;
    Ok(sum_of(&rows))
}

// Adds a row of five texts to the table t.
pub fn insert_texts<P: EditPager>(
    alloc: Global,
    pager: &mut P,
    last: usize,
) -> Result<(), Stop<P::Fault>>
    requires { last ≤ 200 }
{
    let row = five_texts(alloc, last)?;
    insert_rows(alloc, pager, &[row])
}

// Changes rows of the table t.
pub fn update_rows<P: EditPager>(
    alloc: Global,
    pager: &mut P,
    changes: Vec<RowChange>,
) -> Result<(), Stop<P::Fault>> {
    if !become_short(&changes) {
        return Err(Stop::Refused(Refusal::BadSizes));
    }
    let catalog = open(alloc, pager)?;
    update::<TreeIndex, P>(alloc, pager, t(alloc, &catalog)?, changes)
}

// Changes a row of the table t, which stands on page 2, to one integer.
pub fn update_integer<P: EditPager>(
    alloc: Global,
    pager: &mut P,
    number: u64,
    value: i64,
) -> Result<(), Stop<P::Fault>> {
    let page = 2;
    let row = integer(alloc, 0)?;
    let was = Placed { number, page, row };
    let row = integer(alloc, value)?;
    let mut changes = Vec::new(alloc);
    changes.push(RowChange { was, row })?;
    update_rows(alloc, pager, changes)
}

// Takes rows out of the table t.
pub fn delete_rows<P: EditPager>(
    alloc: Global,
    pager: &mut P,
    rows: &[Placed],
) -> Result<(), Stop<P::Fault>> {
    let catalog = open(alloc, pager)?;
    delete::<TreeIndex, P>(alloc, pager, t(alloc, &catalog)?, rows)
}

// Takes the rows of these numbers out of the table t.
pub fn delete_numbers<P: EditPager>(
    alloc: Global,
    pager: &mut P,
    numbers: &[u64],
) -> Result<(), Stop<P::Fault>> {
    let mut rows = rows_in_t(alloc, pager)?;
    rows.retain(|placed| numbers.contains(&placed.number));
    delete_rows(alloc, pager, &rows)
}

// The next row number of the table t.
pub fn next_in_t<P: Pager>(alloc: Global, pager: &mut P) -> Result<u64, Stop<P::Fault>> {
    let catalog = open(alloc, pager)?;
    next_number(alloc, pager, t(alloc, &catalog)?)
}

// The rows of the table t.
pub fn rows_in_t<P: Pager>(alloc: Global, pager: &mut P) -> Result<Vec<Placed>, Stop<P::Fault>> {
    let catalog = open(alloc, pager)?;
    rows(alloc, pager, t(alloc, &catalog)?)
}

// How many rows the table t has.
pub fn count<P: Pager>(alloc: Global, pager: &mut P) -> Result<usize, Stop<P::Fault>> {
    Ok(rows_in_t(alloc, pager)?.len())
}

pub fn first_integer(row: &Row) -> Option<i64> {
    match row.as_slice().first() {
        Some(Value::Int(integer)) => Some(*integer),
        _ => None,
    }
}

// Whether the rows of the table t have these numbers and integers.
pub fn rows_are<P: Pager>(
    alloc: Global,
    pager: &mut P,
    want: &[(u64, i64)],
) -> Result<bool, Stop<P::Fault>> {
    let rows = rows_in_t(alloc, pager)?;
    Ok(
        rows.len() == want.len()
            && rows.iter().zip(want).all(|(placed, (number, integer))| {
                placed.number == *number && first_integer(&placed.row) == Some(*integer)
            }),
    )
}

// Whether a page begins with these bytes.
pub fn begins(pager: &MemPager, page: usize, bytes: &[u8]) -> bool {
    holds_at(pager, page, 0, bytes)
}

// Whether these bytes stand at that place of a page.
pub fn holds_at(pager: &MemPager, page: usize, place: usize, bytes: &[u8]) -> bool {
    match pager.pages().get(page) {
        Some(page) => page.bytes()[place.min(1024)..].starts_with(bytes),
        None => false,
    }
}

// Whether these pages, in rising order, were edited after so many edits.
pub fn edits_are(
    alloc: Global,
    pager: &MemPager,
    since: usize,
    want: &[u32],
) -> Result<bool, Stop<Failed>> {
    let edits = pager.edits();
    let mut pages = edits[since.min(edits.len())..].to_vec(alloc)?;
    pages.sort()?;
    Ok(pages.as_slice() == want)
}
