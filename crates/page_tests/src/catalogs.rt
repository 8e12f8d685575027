//! Catalogs: byte for byte by hand, full, and damaged.

ghost use Rattle.std.specs.Prelude.{◌<◌};

use crate::chains::{add_row, take_out};
use crate::support::{
    begins, edits_are, make_index, make_table, one_table, tables_and_indexes, text, zero_pages,
};
use pager::{EditPager, MemPager, Stop, broken};
use retro_base::{Failed, Page, Refusal};
use std::alloc::{AllocError, Global};
use std::test::Fail;
use values::{Kind, Row, Seq, Value};

// The first page of the catalog after t(a INT) was made: the header, (1,'t',2) under number 0, (2,'t',0,'a',1) under
// number 1.
const CATALOG_OF_T: [u8; 98] = [
    1, 0, 0, 2, 0, 0, 0, 0, 0, 0, 0, 0, 0, 0, 0, 2, 0, 0, 0, 0, //
    0, 30, 0, 0, 0, 0, 0, 0, 0, 0, 3, //
    1, 0, 0, 0, 0, 0, 0, 0, 1, 2, 1, b't', 1, 0, 0, 0, 0, 0, 0, 0, 2, //
    0, 42, 0, 0, 0, 0, 0, 0, 0, 1, 5, //
    1, 0, 0, 0, 0, 0, 0, 0, 2, 2, 1, b't', 1, 0, 0, 0, 0, 0, 0, 0, 0, //
    2, 1, b'a', 1, 0, 0, 0, 0, 0, 0, 0, 1, 0, 0,
];

#[test]
fn a_table_in_bytes(rt: HostRuntime) -> Result<(), Fail> {
    let alloc = rt.alloc();
    let pager = one_table(alloc)?;
    let edited = edits_are(alloc, &pager, 0, &[0, 1, 2]);
    let pages = [
        begins(&pager, 0, &[0, 0, 0, 1, 0, 0, 0, 0, 0, 0, 0, 0]),
        begins(&pager, 1, &CATALOG_OF_T),
        begins(&pager, 2, &[1, 0, 0, 0]),
    ];
    assert!(rt; (edited, pages) == (Ok(true), [true; 3]));
    Ok(())
}

// What an index i over t(a) adds to it: the count of rows and the next row number are 3, and (3,'i','t',0,2,3) stands
// under number 2: it is a tree, and its root page is 3.
const ROW_OF_I: [u8; 53] = [
    0, 51, 0, 0, 0, 0, 0, 0, 0, 2, 6, //
    1, 0, 0, 0, 0, 0, 0, 0, 3, 2, 1, b'i', 2, 1, b't', //
    1, 0, 0, 0, 0, 0, 0, 0, 0, 1, 0, 0, 0, 0, 0, 0, 0, 2, 1, 0, 0, 0, 0, 0, 0, 0, 3,
];

// The first page of the catalog of t(a INT) with the index i over a.
fn catalog_with_i(alloc: Global) -> Result<Vec<u8>, AllocError> {
    let mut page = CATALOG_OF_T[..96].to_vec(alloc)?;
    page[3] = 3;
    page[15] = 3;
    for byte in ROW_OF_I {
        page.push(byte)?;
    }
    Ok(page)
}

#[test]
fn an_index_in_bytes(rt: HostRuntime) -> Result<(), Fail> {
    let alloc = rt.alloc();
    let mut pager = one_table(alloc)?;
    let made = make_index(alloc, &mut pager, b"i", b"t", 0);
    let edited = edits_are(alloc, &pager, 3, &[0, 1, 3]);
    let pages = [
        begins(&pager, 1, &catalog_with_i(alloc)?),
        begins(&pager, 3, &[6, 0, 0, 0, 0, 0, 0, 0]),
    ];
    let read = tables_and_indexes(alloc, &mut pager);
    assert!(rt; (made, edited, pages) == (Ok(()), Ok(true), [true; 2]));
    assert!(rt; read == Ok((1, 1)));
    Ok(())
}

// A store of so many pages with thirteen tables of one column, named a to m: their rows fill the first page of the
// catalog, and the pages from 15 on are free.
fn thirteen_tables(alloc: Global, pages: usize) -> Result<MemPager, Stop<Failed>>
    requires { pages < 2000 }
{
    let mut pager = zero_pages(alloc, pages, &[])?;
    for letter in b'a'..=b'm' {
        make_table(alloc, &mut pager, &[letter], &[Kind::Int])?;
    }
    Ok(pager)
}

// The same of 35 pages with eighteen indexes over the table m, named A to R: their rows fill one more page of the
// catalog, and with their root pages 34 are taken.
fn eighteen_indexes(alloc: Global) -> Result<MemPager, Stop<Failed>> {
    let mut pager = thirteen_tables(alloc, 35)?;
    for letter in b'A'..=b'R' {
        make_index(alloc, &mut pager, &[letter], b"m", 0)?;
    }
    Ok(pager)
}

#[test]
fn the_nineteenth_index_needs_two_pages(rt: HostRuntime) -> Result<(), Fail> {
    let alloc = rt.alloc();
    let mut pager = eighteen_indexes(alloc)?;
    let told = tables_and_indexes(alloc, &mut pager);
    let edits = pager.edits().len();
    let made = make_index(alloc, &mut pager, b"S", b"m", 0);
    let full = Refusal::PagesFull { pages: 35 };
    assert!(rt; (told, made) == (Ok((13, 18)), Err(Stop::Refused(full))));
    assert!(rt; pager.edits().len() == edits);
    Ok(())
}

#[test]
fn the_fourteenth_table_needs_two_pages(rt: HostRuntime) -> Result<(), Fail> {
    let alloc = rt.alloc();
    let mut pager = thirteen_tables(alloc, 16)?;
    let told = tables_and_indexes(alloc, &mut pager);
    let edits = pager.edits().len();
    let made = make_table(alloc, &mut pager, b"n", &[Kind::Int]);
    let full = Refusal::PagesFull { pages: 16 };
    assert!(rt; (told, made) == (Ok((13, 0)), Err(Stop::Refused(full))));
    assert!(rt; pager.edits().len() == edits);
    Ok(())
}

// Whether the catalog is refused by the place of its first page.
fn catalog_is_broken(alloc: Global, pager: &mut MemPager) -> bool {
    tables_and_indexes(alloc, pager) == Err(Stop::Refused(broken(1)))
}

// A store of 16 pages, all of them zero but page 1, which names itself.
fn self_named_catalog(alloc: Global) -> Result<MemPager, AllocError> {
    let mut pages = vec![in alloc; Page::zero(); 16]?;
    pages[1].put_u32(4, 1);
    Ok(MemPager::new(alloc, pages, Vec::new(alloc)))
}

#[test]
fn a_catalog_that_names_itself_is_no_chain(rt: HostRuntime) -> Result<(), Fail> {
    let alloc = rt.alloc();
    let mut pager = self_named_catalog(alloc)?;
    let told = catalog_is_broken(alloc, &mut pager);
    assert!(rt; (told, pager.edits().is_empty()) == (true, true));
    Ok(())
}

// Rows of a catalog behind those of t(a INT). A cell without a text is its number.
const DAMAGED: [&[&[(i64, &[u8])]]; 9] = [
    // Too few values, a kind of column that there is not, and a kind of row that there is not.
    &[&[(1, b""), (0, b"u")]],
    &[&[(2, b""), (0, b"t"), (1, b""), (0, b"b"), (3, b"")]],
    &[&[(4, b""), (0, b"u"), (2, b"")]],
    // A table without columns, and one whose first column is not there.
    &[&[(1, b""), (0, b"u"), (9, b"")]],
    &[
        &[(1, b""), (0, b"u"), (9, b"")],
        &[(2, b""), (0, b"u"), (1, b""), (0, b"a"), (1, b"")],
    ],
    // Indexes of two forms that there are not, one over a table that is not there, and one over a column that is not
    // there.
    &[&[(3, b""), (0, b"i"), (0, b"t"), (0, b""), (1, b""), (9, b"")]],
    &[&[(3, b""), (0, b"i"), (0, b"t"), (0, b""), (3, b""), (0, b"")]],
    &[&[(3, b""), (0, b"i"), (0, b"u"), (0, b""), (0, b""), (0, b"")]],
    &[&[(3, b""), (0, b"i"), (0, b"t"), (1, b""), (0, b""), (0, b"")]],
];

// A row of these cells.
fn row_of_cells(alloc: Global, cells: &[(i64, &[u8])]) -> Result<Row, Refusal> {
    let mut row = Seq::new(alloc);
    for (number, text) in cells {
        row.push(cell(alloc, *number, text)?)?;
    }
    Ok(row)
}

fn cell(alloc: Global, number: i64, letters: &[u8]) -> Result<Value, Refusal> {
    if letters.is_empty() {
        return Ok(Value::Int(number));
    }
    text(alloc, letters)
}

// Adds a row of these cells to the catalog.
fn add_to_catalog<P: EditPager>(
    alloc: Global,
    pager: &mut P,
    cells: &[(i64, &[u8])],
) -> Result<(), Stop<P::Fault>> {
    let row = row_of_cells(alloc, cells)?;
    add_row(alloc, pager, 1, &row)?;
    Ok(())
}

// Whether the catalog of t(a INT) with these rows behind its own is refused.
fn is_refused_with(alloc: Global, rows: &[&[(i64, &[u8])]]) -> Result<bool, Stop<Failed>> {
    let mut pager = one_table(alloc)?;
    for cells in rows {
        add_to_catalog(alloc, &mut pager, cells)?;
    }
    Ok(catalog_is_broken(alloc, &mut pager))
}

// Whether the catalog of t(a INT) without the row of its column is refused.
fn is_refused_without_column(alloc: Global) -> Result<bool, Stop<Failed>> {
    let mut pager = one_table(alloc)?;
    take_out(alloc, &mut pager, 1, 1, 1)?;
    Ok(catalog_is_broken(alloc, &mut pager))
}

#[test]
fn a_damaged_catalog_is_told(rt: HostRuntime) -> Result<(), Fail> {
    let alloc = rt.alloc();
    for rows in DAMAGED {
        assert!(rt; is_refused_with(alloc, rows) == Ok(true));
    }
    assert!(rt; is_refused_without_column(alloc) == Ok(true));
    Ok(())
}
