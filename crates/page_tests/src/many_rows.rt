//! Thousands of rows in one call, counted and summed, and how many reads and edits a call makes on a table of two
//! sizes.

use crate::support::{
    delete_all, indexed_integers, integers, raise_integers, rows_in_t, sum_between, sum_of,
};
use pager::{MemPager, Stop};
use retro_base::{Failed, Refusal};
use std::alloc::Global;
use std::test::Fail;

// What an index tells of 1,001 rows of their numbers that are added in one call, and once each rose by one in one call:
// of all, and of those from 501 on.
fn many_listed(alloc: Global) -> Result<[(usize, i64); 3], Stop<Failed>> {
    let mut pager = indexed_integers(alloc, 200, 1001)?;
    let before = sum_between(alloc, &mut pager, 0, 1000)?;
    raise_integers(alloc, &mut pager)?;
    Ok([
        before,
        sum_between(alloc, &mut pager, i64::MIN, i64::MAX)?,
        sum_between(alloc, &mut pager, 501, 1001)?,
    ])
}

// The same of 10,001 rows of a table without an index.
fn many_changed(alloc: Global) -> Result<[(usize, i64); 2], Stop<Failed>> {
    let mut pager = integers(alloc, 210, 10_001)?;
    let before = sum_of(&rows_in_t(alloc, &mut pager)?);
    raise_integers(alloc, &mut pager)?;
    Ok([before, sum_of(&rows_in_t(alloc, &mut pager)?)])
}

#[test]
fn thousands_of_rows_change_in_one_call(rt: HostRuntime) -> Result<(), Fail> {
    let alloc = rt.alloc();
    let listed = [(1001, 500_500), (1001, 501_501), (501, 376_251)];
    let changed = [(10_001, 50_005_000), (10_001, 50_015_001)];
    assert!(rt; (many_listed(alloc), many_changed(alloc)) == (Ok(listed), Ok(changed)));
    Ok(())
}

// Calls whose reads and edits are counted.
#[derive(Clone, Copy)]
enum Call {
    Range,
    Update,
    Delete,
}

// How many reads and edits each may make for a page of a table with fifty rows a page. The leaves of an index over it
// hold at least twenty entries each.
const CALLS: [(Call, u64); 3] = [(Call::Range, 4), (Call::Update, 3), (Call::Delete, 4)];

// A store with a table of so many pages: with an index for a range.
fn store_for(alloc: Global, call: Call, pages: u32) -> Result<MemPager, Stop<Failed>> {
    let rows = pages.saturating_mul(50);
    match call {
        Call::Range => indexed_integers(alloc, 100, rows),
        Call::Update | Call::Delete => integers(alloc, 100, rows),
    }
}

// The same pages, for which so many reads and edits are granted.
fn granting(alloc: Global, pager: &MemPager, calls: u64) -> Result<MemPager, Stop<Failed>> {
    let pages = pager.pages().to_vec(alloc)?;
    if pages.len() != 100 {
        return Err(Stop::Refused(Refusal::BadSizes));
    }
    let failing = vec![in alloc; calls.saturating_add(1)]?;
    Ok(MemPager::new(alloc, pages, failing))
}

fn make_call(alloc: Global, pager: &mut MemPager, call: Call) -> Result<(), Stop<Failed>> {
    match call {
        Call::Range => sum_between(alloc, pager, i64::MIN, i64::MAX).map(|_| ()),
        Call::Update => raise_integers(alloc, pager),
        Call::Delete => delete_all(alloc, pager),
    }
}

// How many of the calls, on all rows of a table of so many pages, keep to so many reads and edits a page, and ten more.
fn within(alloc: Global, pages: u32) -> Result<usize, Stop<Failed>> {
    let mut within: usize = 0;
    for (call, each) in CALLS {
        let pager = store_for(alloc, call, pages)?;
        let granted = each.saturating_mul(u64::from(pages)).saturating_add(10);
        if make_call(alloc, &mut granting(alloc, &pager, granted)?, call) == Ok(()) {
            within = within.saturating_add(1);
        }
    }
    Ok(within)
}

#[test]
fn reads_and_edits_grow_with_the_pages(rt: HostRuntime) -> Result<(), Fail> {
    let alloc = rt.alloc();
    assert!(rt; [within(alloc, 10), within(alloc, 20)] == [Ok(3), Ok(3)]);
    Ok(())
}
