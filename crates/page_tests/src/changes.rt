//! Rows that are added, changed and taken out, and faults on the way.

use crate::support::{
    bytes_of_texts, count, delete_numbers, edits_are, insert_integer, insert_texts, make_table,
    next_in_t, one_table, rows_are, update_integer, zero_pages,
};
use pager::{MemPager, Stop};
use retro_base::{Failed, Refusal};
use std::alloc::Global;
use std::test::Fail;
use values::Kind;

// How many reads and edits an insert of one row makes: a read of the catalog's page, and a read and an edit of the
// table's.
const CALLS_OF_INSERT: u64 = 3;

// A store with t(a INT), which has the rows (0), (10) and (20).
fn three_rows(alloc: Global) -> Result<MemPager, Stop<Failed>> {
    let mut pager = one_table(alloc)?;
    for number in [0, 10, 20] {
        insert_integer(alloc, &mut pager, number)?;
    }
    Ok(pager)
}

#[test]
fn rows_are_added_under_the_next_numbers(rt: HostRuntime) -> Result<(), Fail> {
    let alloc = rt.alloc();
    let mut pager = three_rows(alloc)?;
    let three = edits_are(alloc, &pager, 3, &[2, 2, 2]);
    let deleted = delete_numbers(alloc, &mut pager, &[0, 2]);
    let one = edits_are(alloc, &pager, 6, &[2]);
    let inserted = insert_integer(alloc, &mut pager, 7);
    let next = next_in_t(alloc, &mut pager);
    let rows = rows_are(alloc, &mut pager, &[(1, 10), (3, 7)]);
    assert!(rt; [three, one, rows] == [Ok(true); 3]);
    assert!(rt; (deleted, inserted, next) == (Ok(()), Ok(()), Ok(4)));
    Ok(())
}

#[test]
fn a_changed_row_keeps_its_number(rt: HostRuntime) -> Result<(), Fail> {
    let alloc = rt.alloc();
    let mut pager = three_rows(alloc)?;
    let updated = update_integer(alloc, &mut pager, 1, -5);
    let edited = edits_are(alloc, &pager, 6, &[2]);
    let rows = rows_are(alloc, &mut pager, &[(0, 0), (1, -5), (2, 20)]);
    assert!(rt; (updated, edited, rows) == (Ok(()), Ok(true), Ok(true)));
    Ok(())
}

#[test]
fn the_second_longest_row_opens_a_page(rt: HostRuntime) -> Result<(), Fail> {
    let alloc = rt.alloc();
    let mut pager = zero_pages(alloc, 16, &[])?;
    let made = make_table(alloc, &mut pager, b"t", &[Kind::Text; 5]);
    let first = insert_texts(alloc, &mut pager, 81);
    let one = edits_are(alloc, &pager, 3, &[2]);
    let second = insert_texts(alloc, &mut pager, 81);
    let opened = edits_are(alloc, &pager, 4, &[0, 2, 3]);
    let long = bytes_of_texts(alloc, 82);
    let deleted = delete_numbers(alloc, &mut pager, &[1]);
    let closed = edits_are(alloc, &pager, 7, &[0, 2, 3]);
    let rows = count(alloc, &mut pager);
    assert!(rt; [made, first, second, deleted] == [Ok(()); 4]);
    assert!(rt; ([one, opened, closed], rows) == ([Ok(true); 3], Ok(1)));
    assert!(rt; long == Err(Refusal::RowTooLong { bytes: 901 }));
    Ok(())
}

// An insert into t(a INT) of three rows where that read or edit fails, and how many rows there are then.
fn insert_failing(alloc: Global, nth: u64) -> Result<(bool, usize), Stop<Failed>> {
    let pages = three_rows(alloc)?.pages().to_vec(alloc)?;
    if pages.len() != 16 {
        return Err(Stop::Refused(Refusal::BadSizes));
    }
    let mut pager = MemPager::new(alloc, pages, vec![in alloc; nth]?);
    let failed = insert_integer(alloc, &mut pager, 30) == Err(Stop::Pager(Failed));
    Ok((failed, count(alloc, &mut pager)?))
}

#[test]
fn a_fault_at_each_read_and_edit_is_told(rt: HostRuntime) -> Result<(), Fail> {
    let alloc = rt.alloc();
    for nth in 1..=CALLS_OF_INSERT {
        assert!(rt; insert_failing(alloc, nth) == Ok((true, 3)));
    }
    Ok(())
}
