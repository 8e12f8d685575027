//! The captures of an archive, and what a plain list of them finds.

use race_model::Batch;
use retro_base::{BATCH, PAGE_BYTES, Page};
use std::alloc::{AllocError, Global};

/// Pages of the store.
pub const PAGES: u32 = 65_536;

/// The page of a capture: 90 in 100 are of 64 pages, the others anywhere.
pub fn page_of(number: u64) -> u32 {
    let random = number
        .wrapping_add(1)
        .wrapping_mul(6_364_136_223_846_793_005)
        >> 33;
    let pages = if random % 100 < 90 {
        64
    } else {
        u64::from(PAGES)
    };
    (random / 100 % pages) as u32
}

/// The byte that its image has alone.
fn byte_of(number: u64) -> u8 {
    (number % 251) as u8 + 1
}

/// Makes it the batch of so many captures from that one on, before which those below `low` may be forgotten.
pub fn refill(batch: &mut Batch, first: u64, count: u64, low: u64) {
    batch.restart(first, low);
    for number in first..first.saturating_add(count) {
        if batch.len() < BATCH {
            batch.add(page_of(number), &Page::of([byte_of(number); PAGE_BYTES]));
        }
    }
}

/// The mappings of these captures, as number and page.
pub fn mappings_of(alloc: Global, from: u64, to: u64) -> Result<Vec<(u64, u32)>, AllocError> {
    let mut mappings = Vec::new(alloc);
    for number in from..to {
        mappings.push((number, page_of(number)))?;
    }
    Ok(mappings)
}

/// Whether these are the pages of the captures from that one on.
pub fn are_pages_from(pages: &[u32], first: u64) -> bool {
    for (place, page) in pages.iter().enumerate() {
        if *page != page_of(first.saturating_add(place as u64)) {
            return false;
        }
    }
    true
}

/// For each page the byte of its first of these captures, if it has one.
pub fn wanted(alloc: Global, from: u64, to: u64) -> Result<Vec<(u32, Option<u8>)>, AllocError> {
    let mut wanted = Vec::with_capacity(alloc, PAGES as usize)?;
    for page in 0..PAGES {
        wanted.push((page, None))?;
    }
    for number in from..to {
        if let Some((_page, byte)) = wanted.get_mut(page_of(number) as usize)
            && byte.is_none()
        {
            *byte = Some(byte_of(number));
        }
    }
    Ok(wanted)
}
