//! Damaged pages.

use crate::keys::store_of;
use pager::{EditPager, Found, Index, MemPager, Stop};
use retro_base::{Failed, PAGE_BYTES, Page, Refusal};
use std::alloc::Global;
use values::{Seq, Text, Value};

// Root pages, and the page 4 that some of them name, by their first bytes; the rest of both is zeros.
const TREES: [(&[u8], &[u8]); 17] = [
    // a leaf without the entry that it counts; with one that passes the page's end; with more than a page has bytes
    (&[6, 0, 0, 1], &[]),
    (&[6, 0, 0, 1, 0, 0, 0, 0, 255, 255], &[]),
    (&[6, 0, 255, 255], &[]),
    // a leaf whose entry's row has two values; whose value is a text; whose integers 5 and 3 fall
    (
        &[
            6, 0, 0, 1, 0, 0, 0, 0, 0, 27, 0, 0, 0, 7, 0, 0, 0, 0, 0, 0, 0, 0, 2, 1, 0, 0, 0, 0, 0,
            0, 0, 5, 1, 0, 0, 0, 0, 0, 0, 0, 5,
        ],
        &[],
    ),
    (
        &[
            6, 0, 0, 1, 0, 0, 0, 0, 0, 11, 0, 0, 0, 7, 0, 0, 0, 0, 0, 0, 0, 0, 1, 2, 0,
        ],
        &[],
    ),
    (
        &[
            6, 0, 0, 2, 0, 0, 0, 0, 0, 18, 0, 0, 0, 7, 0, 0, 0, 0, 0, 0, 0, 0, 1, 1, 0, 0, 0, 0, 0,
            0, 0, 5, 0, 18, 0, 0, 0, 7, 0, 0, 0, 0, 0, 0, 0, 1, 1, 1, 0, 0, 0, 0, 0, 0, 0, 3,
        ],
        &[],
    ),
    // an inner page whose first child is past the store; the catalog's page; itself; a page of no kind; one of a chain
    (&[5, 0, 0, 0, 0, 0, 0x13, 0x88], &[]),
    (&[5, 0, 0, 0, 0, 0, 0, 1], &[]),
    (&[5, 0, 0, 0, 0, 0, 0, 3], &[]),
    (&[5, 0, 0, 0, 0, 0, 0, 4], &[]),
    (&[5, 0, 0, 0, 0, 0, 0, 4], &[4]),
    // an inner page over a leaf, without the key that it counts
    (&[5, 0, 0, 1, 0, 0, 0, 4], &[6]),
    // over a leaf, and behind the key 9, 10 or a text over a page past the store: a look-up to 9 goes there at 9 alone
    (
        &[
            5, 0, 0, 1, 0, 0, 0, 4, 0, 18, 0, 0, 0x13, 0x88, 0, 0, 0, 0, 0, 0, 0, 0, 1, 1, 0, 0, 0,
            0, 0, 0, 0, 9,
        ],
        &[6],
    ),
    (
        &[
            5, 0, 0, 1, 0, 0, 0, 4, 0, 18, 0, 0, 0x13, 0x88, 0, 0, 0, 0, 0, 0, 0, 0, 1, 1, 0, 0, 0,
            0, 0, 0, 0, 10,
        ],
        &[6],
    ),
    (
        &[
            5, 0, 0, 1, 0, 0, 0, 4, 0, 11, 0, 0, 0x13, 0x88, 0, 0, 0, 0, 0, 0, 0, 0, 1, 2, 0,
        ],
        &[6],
    ),
    // over a page past the store, and behind a key of value 0 and row 0 or 1 over a leaf: nothing is before row 0
    (
        &[
            5, 0, 0, 1, 0, 0, 0x13, 0x88, 0, 18, 0, 0, 0, 4, 0, 0, 0, 0, 0, 0, 0, 0, 1, 1, 0, 0, 0,
            0, 0, 0, 0, 0,
        ],
        &[6],
    ),
    (
        &[
            5, 0, 0, 1, 0, 0, 0x13, 0x88, 0, 18, 0, 0, 0, 4, 0, 0, 0, 0, 0, 0, 0, 1, 1, 1, 0, 0, 0,
            0, 0, 0, 0, 0,
        ],
        &[6],
    ),
];

// The place at which a look-up of integers is refused, or 0 where it is not.
fn refused_at<I: Index>(
    alloc: Global,
    index: &I,
    pager: &mut MemPager,
) -> Result<u64, Stop<Failed>> {
    match index.range(alloc, pager, &Value::Int(0), &Value::Int(9)) {
        Err(Stop::Refused(Refusal::NotAStore { place, .. })) => Ok(place),
        Err(why) => Err(why),
        Ok(_) => Ok(0),
    }
}

// The same of an index whose root page, page 3, has these bytes.
fn at_root<I: Index>(alloc: Global, page: &Page) -> Result<u64, Stop<Failed>> {
    let mut pager = store_of(alloc, &[])?;
    pager.edit(3, page).map_err(Stop::Pager)?;
    refused_at(alloc, &I::at(3), &mut pager)
}

/// The places at which look-ups are refused: a page of no kind, one that names itself, one without the entry that it
/// counts, one past the store, and one with a text.
pub fn damaged_places<I: Index>(alloc: Global) -> Result<Vec<u64>, Stop<Failed>> {
    let mut places = Vec::new(alloc);
    let mut page = Page::zero();
    places.push(at_root::<I>(alloc, &page)?)?;
    page.put_bytes(0, &[4]);
    page.put_u32(4, 3);
    places.push(at_root::<I>(alloc, &page)?)?;
    page.put_u32(4, 0);
    page.put_u16(2, 1);
    places.push(at_root::<I>(alloc, &page)?)?;
    page.put_u32(4, 5000);
    page.put_u16(2, 0);
    places.push(at_root::<I>(alloc, &page)?)?;
    let mut pager = store_of(alloc, &[])?;
    let index = I::make(alloc, &mut pager)?;
    let entry = Found {
        value: Value::Text(Text::new(Seq::new(alloc))),
        number: 0,
        page: 7,
    };
    index.add(alloc, &mut pager, &entry)?;
    places.push(refused_at(alloc, &index, &mut pager)?)?;
    Ok(places)
}

// Puts a page with these first bytes into the store.
fn put<P: EditPager>(pager: &mut P, number: u32, bytes: &[u8]) -> Result<(), Stop<P::Fault>> {
    if number >= pager.size() {
        return Err(Stop::Refused(Refusal::BadSizes));
    }
    let mut page = Page::zero();
    page.put_bytes(0, &bytes[..bytes.len().min(PAGE_BYTES)]);
    pager.edit(number, &page).map_err(Stop::Pager)
}

/// The places at which look-ups over the pages of `TREES` are refused, or 0 where they are not.
pub fn tree_places<I: Index>(alloc: Global) -> Result<Vec<u64>, Stop<Failed>> {
    let mut places = Vec::new(alloc);
    for (root, child) in TREES {
        let mut pager = store_of(alloc, &[])?;
        put(&mut pager, 3, root)?;
        put(&mut pager, 4, child)?;
        places.push(refused_at(alloc, &I::at(3), &mut pager)?)?;
    }
    Ok(places)
}
