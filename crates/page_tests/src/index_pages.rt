//! Pages of an index that are wanting, damaged, or behind their table.

use crate::chains::take_out;
use crate::support::{
    delete_numbers, indexed_integers, insert_integer, integers, make_index, sum_between,
    update_integer,
};
use pager::{MemPager, Stop};
use retro_base::{Device, Failed, Page, Refusal};
use std::alloc::Global;
use std::test::Fail;

// How many rows of one integer a leaf lists: their page of the table holds fifty.
const LISTED: u32 = 42;

// Whether an answer is that a store of so many pages is full.
fn is_full(answer: Result<(), Stop<Failed>>, pages: usize) -> bool {
    match answer {
        Err(Stop::Refused(Refusal::PagesFull { pages: told })) => told as usize == pages,
        _ => false,
    }
}

// Whether one more row than a leaf lists is refused in a store of so many pages, and no page edited.
fn insert_is_refused(alloc: Global, pages: usize) -> Result<bool, Stop<Failed>> {
    let mut pager = indexed_integers(alloc, pages, LISTED)?;
    let before = pager.pages().to_vec(alloc)?;
    let answer = insert_integer(alloc, &mut pager, 7);
    Ok(is_full(answer, pages) && pager.pages() == before.as_slice())
}

// Whether an index over so many rows is refused, and no page edited.
fn index_is_refused(alloc: Global, pages: usize) -> Result<bool, Stop<Failed>> {
    let mut pager = integers(alloc, pages, LISTED.saturating_add(1))?;
    let before = pager.pages().to_vec(alloc)?;
    let answer = make_index(alloc, &mut pager, b"i", b"t", 0);
    Ok(is_full(answer, pages) && pager.pages() == before.as_slice())
}

#[test]
fn a_tree_that_splits_needs_two_pages(rt: HostRuntime) -> Result<(), Fail> {
    let alloc = rt.alloc();
    for (pages, full) in [(4, true), (5, true), (6, false)] {
        assert!(rt; insert_is_refused(alloc, pages) == Ok(full));
        assert!(rt; index_is_refused(alloc, pages) == Ok(full));
    }
    Ok(())
}

// What the root page of an index holds that is no page of a tree of integers: nothing, a page of a table, one of a
// sorted chain, an inner page over itself, a leaf whose entry is cut off, one whose entry is the text 'a', and no kind
// of page.
const DAMAGED: [&[u8]; 7] = [
    &[0],
    &[1, 0, 0, 0],
    &[4, 0, 0, 0],
    &[5, 0, 0, 0, 0, 0, 0, 3],
    &[6, 0, 0, 1, 0, 0, 0, 0],
    &[
        6, 0, 0, 1, 0, 0, 0, 0, //
        0, 12, 0, 0, 0, 2, 0, 0, 0, 0, 0, 0, 0, 0, 1, 2, 1, b'a',
    ],
    &[7, 0, 0, 0],
];

// A store of 16 pages with t(a INT), the rows (0), (1) and (2), and an index whose root page, which is page 3, holds
// this.
fn damaged(alloc: Global, held: &[u8]) -> Result<MemPager, Stop<Failed>> {
    let mut pages = indexed_integers(alloc, 16, 3)?.pages().to_vec(alloc)?;
    if pages.len() != 16 || held.len() > 100 {
        return Err(Stop::Refused(Refusal::BadSizes));
    }
    pages[3] = Page::zero();
    pages[3].put_bytes(0, held);
    Ok(MemPager::new(alloc, pages, Vec::new(alloc)))
}

// Whether each call tells the place of that page, and none edits a page.
fn is_told(alloc: Global, held: &[u8]) -> Result<bool, Stop<Failed>> {
    let mut pager = damaged(alloc, held)?;
    let answers = [
        sum_between(alloc, &mut pager, 0, 2).map(|_| ()),
        insert_integer(alloc, &mut pager, 3),
        update_integer(alloc, &mut pager, 1, 7),
        delete_numbers(alloc, &mut pager, &[2]),
    ];
    let broken = Refusal::NotAStore {
        device: Device::Pages,
        place: 3072,
    };
    Ok(answers == [Err(Stop::Refused(broken)); 4] && pager.edits().is_empty())
}

#[test]
fn a_damaged_root_page_of_an_index_is_told(rt: HostRuntime) -> Result<(), Fail> {
    let alloc = rt.alloc();
    for held in DAMAGED {
        assert!(rt; is_told(alloc, held) == Ok(true));
    }
    Ok(())
}

// The rows from 0 to 2 as an index tells them, before the row of 1 is taken out of its page alone, and after.
fn passed_over(alloc: Global) -> Result<[(usize, i64); 2], Stop<Failed>> {
    let mut pager = indexed_integers(alloc, 16, 3)?;
    let before = sum_between(alloc, &mut pager, 0, 2)?;
    take_out(alloc, &mut pager, 2, 2, 1)?;
    Ok([before, sum_between(alloc, &mut pager, 0, 2)?])
}

#[test]
fn an_entry_without_a_row_is_passed_over(rt: HostRuntime) -> Result<(), Fail> {
    assert!(rt; passed_over(rt.alloc()) == Ok([(3, 3), (2, 2)]));
    Ok(())
}
