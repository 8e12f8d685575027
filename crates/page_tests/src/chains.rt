//! What no clause says: pages byte for byte by hand, which pages each call edits, and that calls succeed.

ghost use Rattle.std.specs.Prelude.{◌≤◌};

use crate::support::{
    begins, edits_are, first_integer, holds_at, is_short, letters, sixteen_values, zero_pages,
};
use heap_file::{add, change, get, make, next_number, remove, scan};
use pager::{EditPager, MemPager, Pager, Root, Stop};
use retro_base::{Device, Failed, Page, Refusal};
use std::alloc::{AllocError, Global};
use std::test::Fail;
use values::{Row, Seq};

// A row of one text of so many letters: 11 bytes more when it is encoded.
fn one_text(alloc: Global, count: usize) -> Result<Row, AllocError>
    requires { count ≤ 200 }
{
    let mut row = Seq::new(alloc);
    row.push(letters(alloc, count)?)?;
    Ok(row)
}

// Takes an empty page for a table.
fn make_page<P: EditPager>(alloc: Global, pager: &mut P) -> Result<u32, Stop<P::Fault>> {
    make(alloc, pager)
}

// Adds a row, and answers its number and page.
pub fn add_row<P: EditPager>(
    alloc: Global,
    pager: &mut P,
    first: u32,
    row: &Row,
) -> Result<(u64, u32), Stop<P::Fault>> {
    if !is_short(row) {
        return Err(Stop::Refused(Refusal::BadSizes));
    }
    add(alloc, pager, first, row)
}

// Adds a row of 60 encoded bytes.
fn add_sixty<P: EditPager>(
    alloc: Global,
    pager: &mut P,
    first: u32,
) -> Result<(u64, u32), Stop<P::Fault>> {
    let row = one_text(alloc, 49)?;
    add_row(alloc, pager, first, &row)
}

// Whether so many rows of 60 encoded bytes come to stand on that page, numbered from 0 on.
fn are_added<P: EditPager>(
    alloc: Global,
    pager: &mut P,
    first: u32,
    count: u64,
    page: u32,
) -> Result<bool, Stop<P::Fault>> {
    for number in 0..count {
        if add_sixty(alloc, pager, first)? != (number, page) {
            return Ok(false);
        }
    }
    Ok(true)
}

// Puts a row in the place of the row of that number on that page, and answers the page where it then stands.
fn change_row<P: EditPager>(
    alloc: Global,
    pager: &mut P,
    first: u32,
    (page, number): (u32, u64),
    row: &Row,
) -> Result<u32, Stop<P::Fault>> {
    if !is_short(row) {
        return Err(Stop::Refused(Refusal::BadSizes));
    }
    change(alloc, pager, first, page, number, row)
}

// Takes out the row of that number on that page.
pub fn take_out<P: EditPager>(
    alloc: Global,
    pager: &mut P,
    first: u32,
    page: u32,
    number: u64,
) -> Result<(), Stop<P::Fault>> {
    remove(alloc, pager, first, page, number)
}

// Whether the row of that number stands on that page.
fn stands<P: Pager>(
    alloc: Global,
    pager: &mut P,
    page: u32,
    number: u64,
) -> Result<bool, Stop<P::Fault>> {
    Ok(get(alloc, pager, page, number)?.is_some())
}

// How many rows there are.
fn count<P: Pager>(alloc: Global, pager: &mut P, first: u32) -> Result<usize, Stop<P::Fault>> {
    Ok(scan(alloc, pager, first)?.len())
}

// The next row number.
fn next<P: Pager>(alloc: Global, pager: &mut P, first: u32) -> Result<u64, Stop<P::Fault>> {
    next_number(alloc, pager, first)
}

// A store of 16 pages with a table of so many rows of 60 bytes, whose first page is 2: sixteen on page 2, which leave
// 12 bytes free there, and the next on page 3.
fn sixties(alloc: Global, count: u64) -> Result<MemPager, Stop<Failed>> {
    let mut pager = zero_pages(alloc, 16, &[])?;
    let first = make_page(alloc, &mut pager)?;
    for _ in 0..count {
        add_sixty(alloc, &mut pager, first)?;
    }
    Ok(pager)
}

// The root page's counts: the pages that were handed out, the first free page, and how many are free.
fn root_of(pager: &MemPager) -> Option<(u32, u32, u32)> {
    let root = Root::of(pager.pages().first()?);
    Some((root.used, root.first_free, root.free))
}

#[test]
fn the_seventeenth_row_opens_a_page(rt: HostRuntime) -> Result<(), Fail> {
    let alloc = rt.alloc();
    let mut pager = zero_pages(alloc, 16, &[])?;
    let made = make_page(alloc, &mut pager);
    let edits = pager.edits().len();
    let sixteen = are_added(alloc, &mut pager, 2, 16, 2);
    let on_one_page = edits_are(alloc, &pager, 2, &[2; 16]);
    let seventeenth = add_sixty(alloc, &mut pager, 2);
    let opened = edits_are(alloc, &pager, 18, &[0, 2, 3]);
    assert!(rt; (made, edits, seventeenth) == (Ok(2), 2, Ok((16, 3))));
    assert!(rt; [sixteen, on_one_page, opened] == [Ok(true); 3]);
    Ok(())
}

#[test]
fn an_empty_page_is_freed_and_opened_again(rt: HostRuntime) -> Result<(), Fail> {
    let alloc = rt.alloc();
    let mut pager = sixties(alloc, 17)?;
    let removed = take_out(alloc, &mut pager, 2, 3, 16);
    let closed = edits_are(alloc, &pager, 21, &[0, 2, 3]);
    let root = root_of(&pager);
    let added = add_sixty(alloc, &mut pager, 2);
    let next = next(alloc, &mut pager, 2);
    let rows = count(alloc, &mut pager, 2);
    let old = stands(alloc, &mut pager, 3, 16);
    let new = stands(alloc, &mut pager, 3, 17);
    assert!(rt; (removed, root, added) == (Ok(()), Some((2, 3, 1)), Ok((17, 3))));
    assert!(rt; (next, rows, [closed, new], old) == (Ok(18), Ok(17), [Ok(true); 2], Ok(false)));
    Ok(())
}

#[test]
fn a_row_of_its_length_stays_on_its_page(rt: HostRuntime) -> Result<(), Fail> {
    let alloc = rt.alloc();
    let mut pager = sixties(alloc, 17)?;
    let removed = take_out(alloc, &mut pager, 2, 3, 16);
    let added = add_sixty(alloc, &mut pager, 2);
    let changed = change_row(alloc, &mut pager, 2, (3, 17), &one_text(alloc, 49)?);
    let changes = edits_are(alloc, &pager, 27, &[3]);
    let first_removed = take_out(alloc, &mut pager, 2, 2, 0);
    let removals = edits_are(alloc, &pager, 28, &[2]);
    assert!(rt; ([removed, first_removed], added, changed) == ([Ok(()); 2], Ok((17, 3)), Ok(3)));
    assert!(rt; [changes, removals] == [Ok(true); 2]);
    Ok(())
}

// A store of 16 pages, all of them zero but page 1, of that kind, which names itself.
fn self_named(alloc: Global, kind: u8) -> Result<MemPager, AllocError> {
    let mut pages = vec![in alloc; Page::zero(); 16]?;
    pages[1].put_bytes(0, &[kind]);
    pages[1].put_u32(4, 1);
    Ok(MemPager::new(alloc, pages, Vec::new(alloc)))
}

#[test]
fn a_page_that_names_itself_is_no_chain(rt: HostRuntime) -> Result<(), Fail> {
    let alloc = rt.alloc();
    let mut unwritten = self_named(alloc, 0)?;
    let mut of_kind_two = self_named(alloc, 2)?;
    let rows = count(alloc, &mut unwritten, 1);
    let next = next(alloc, &mut of_kind_two, 1);
    let broken = Stop::Refused(Refusal::NotAStore {
        device: Device::Pages,
        place: 1024,
    });
    assert!(rt; (rows, next) == (Err(broken), Err(broken)));
    Ok(())
}

#[test]
fn a_page_in_bytes(rt: HostRuntime) -> Result<(), Fail> {
    let alloc = rt.alloc();
    let pager = sixties(alloc, 1)?;
    let bytes = [
        begins(&pager, 2, &[1, 0, 0, 1, 0, 0, 0, 0, 0, 0, 0, 0, 0, 0, 0, 1]),
        holds_at(&pager, 2, 16, &[0, 0, 0, 0, 0, 60]),
        holds_at(&pager, 2, 30, &[1, 2, 49, b'x']),
        holds_at(&pager, 2, 81, &[b'x', 0, 0]),
    ];
    assert!(rt; bytes == [true; 4]);
    Ok(())
}

// Takes so many pages.
fn make_pages<P: EditPager>(
    alloc: Global,
    pager: &mut P,
    count: u32,
) -> Result<(), Stop<P::Fault>> {
    for _ in 0..count {
        make(alloc, pager)?;
    }
    Ok(())
}

#[test]
fn full_before_the_first_edit(rt: HostRuntime) -> Result<(), Fail> {
    let alloc = rt.alloc();
    let mut pager = zero_pages(alloc, 16, &[])?;
    let made = make_pages(alloc, &mut pager, 14);
    let edits = pager.edits().len();
    let refused = make_page(alloc, &mut pager);
    let full = Stop::Refused(Refusal::PagesFull { pages: 16 });
    assert!(rt; (made, refused, pager.edits().len()) == (Ok(()), Err(full), edits));
    Ok(())
}

#[test]
fn a_longer_row_moves_to_the_last_page(rt: HostRuntime) -> Result<(), Fail> {
    let alloc = rt.alloc();
    let mut pager = sixties(alloc, 17)?;
    let edits = pager.edits().len();
    let changed = change_row(alloc, &mut pager, 2, (2, 0), &one_text(alloc, 69)?);
    let edited = edits_are(alloc, &pager, edits, &[2, 3]);
    let bytes = [
        begins(&pager, 2, &[1, 0, 0, 15]),
        holds_at(&pager, 2, 20, &[0, 60, 0, 0, 0, 0, 0, 0, 0, 1]),
        begins(&pager, 3, &[1, 0, 0, 2]),
        holds_at(&pager, 3, 20, &[0, 60, 0, 0, 0, 0, 0, 0, 0, 16]),
        holds_at(
            &pager,
            3,
            82,
            &[0, 80, 0, 0, 0, 0, 0, 0, 0, 0, 1, 2, 69, b'x'],
        ),
    ];
    let rows = count(alloc, &mut pager, 2);
    assert!(rt; (changed, edited, bytes, rows) == (Ok(3), Ok(true), [true; 5], Ok(17)));
    Ok(())
}

// Adds so many rows, the first of zeros, the next of ones, and on.
fn add_rows<P: EditPager>(
    alloc: Global,
    pager: &mut P,
    first: u32,
    count: i64,
) -> Result<(), Stop<P::Fault>> {
    for number in 0..count {
        let row = sixteen_values(alloc, number)?;
        add_row(alloc, pager, first, &row)?;
    }
    Ok(())
}

// Changes each row to one of a greater integer.
fn change_rows<P: EditPager>(
    alloc: Global,
    pager: &mut P,
    first: u32,
    more: i64,
) -> Result<(), Stop<P::Fault>> {
    let mut number = more;
    for placed in &scan(alloc, pager, first)? {
        let row = sixteen_values(alloc, number)?;
        change_row(alloc, pager, first, (placed.page, placed.number), &row)?;
        number = number.saturating_add(1);
    }
    Ok(())
}

// Takes out each row.
fn remove_rows<P: EditPager>(
    alloc: Global,
    pager: &mut P,
    first: u32,
) -> Result<(), Stop<P::Fault>> {
    for placed in &scan(alloc, pager, first)? {
        remove(alloc, pager, first, placed.page, placed.number)?;
    }
    Ok(())
}

// How many rows there are whose number is their place, and whose first value is so much more.
fn count_rows<P: Pager>(
    alloc: Global,
    pager: &mut P,
    first: u32,
    more: i64,
) -> Result<usize, Stop<P::Fault>> {
    let mut count: usize = 0;
    let mut number = more;
    for placed in &scan(alloc, pager, first)? {
        if placed.number == count as u64 && first_integer(&placed.row) == Some(number) {
            count = count.saturating_add(1);
        }
        number = number.saturating_add(1);
    }
    Ok(count)
}

#[test]
fn a_table_of_forty_pages(rt: HostRuntime) -> Result<(), Fail> {
    let alloc = rt.alloc();
    let mut pager = zero_pages(alloc, 50, &[])?;
    let first = make_page(alloc, &mut pager)?;
    let added = add_rows(alloc, &mut pager, first, 40);
    let there = count_rows(alloc, &mut pager, first, 0);
    let changed = change_rows(alloc, &mut pager, first, 1000);
    let after = count_rows(alloc, &mut pager, first, 1000);
    let removed = remove_rows(alloc, &mut pager, first);
    let left = count(alloc, &mut pager, first);
    let root = root_of(&pager).map(|(used, _, free)| (used, free));
    assert!(rt; [added, changed, removed] == [Ok(()); 3]);
    assert!(rt; ([there, after, left], root) == ([Ok(40), Ok(40), Ok(0)], Some((40, 39))));
    Ok(())
}

// A table of so many rows, each on a page of its own: how many of them are told.
fn counted(alloc: Global, rows: i64) -> Result<usize, Stop<Failed>> {
    let mut pager = zero_pages(alloc, 1110, &[])?;
    let first = make_page(alloc, &mut pager)?;
    add_rows(alloc, &mut pager, first, rows)?;
    count_rows(alloc, &mut pager, first, 0)
}

#[test]
fn a_table_of_1100_pages(rt: HostRuntime) -> Result<(), Fail> {
    assert!(rt; counted(rt.alloc(), 1100) == Ok(1100));
    Ok(())
}
