//! Logs and Maplogs that belong together.

use crate::bodies::{base_of, commits_of, filled};
use crate::encoding::right_base;
use history::{PageImage, RunningBase, Version};
use records::read_log;
use replay::{Opened, holds_base, holds_changes, join};
use retro_base::{PAGE_BYTES, Page, Refusal};
use skippy::Mappings;
use std::alloc::{AllocError, Global};
use values::Seq;

// So many pages, the last first.
fn descending(alloc: Global, count: u32) -> Result<Vec<u32>, AllocError> {
    let mut pages = Vec::new(alloc);
    for page in 0..count {
        pages.push(count - 1 - page)?;
    }
    Ok(pages)
}

fn map(mappings: &mut Mappings, pages: &[u32]) -> Result<(), Refusal> {
    if mappings.end() > 1 << 32 || pages.len() > 1 << 32 {
        return Err(Refusal::BadSizes);
    }
    mappings.push(pages)?;
    Ok(())
}

/// Whether a base that was captured once before its snapshot and so many pages since, and changes that captured these
/// pages, fit mappings of all of them, the last page first.
#[inline(never)]
pub fn belongs(alloc: Global, captured: u32) -> Result<bool, Refusal> {
    let base = right_base(alloc, &base_of(alloc, 1, captured)?)?;
    let pages = descending(alloc, captured)?;
    let mut mappings = Mappings::new(alloc, 0);
    map(&mut mappings, &[0])?;
    map(&mut mappings, &pages)?;
    let holds = holds_base(alloc, &base, &mappings)?;
    let behind = RunningBase::new(alloc, base)?;
    if mappings.end() < 1 || behind.captures() != 1 + pages.len() as u64 {
        return Ok(false);
    }
    Ok(holds && holds_changes(1, &behind, &pages, &mappings))
}

// The byte that fills the slots.
const SLOT: u8 = 252;

// The store of a log that declares a snapshot and commits each page alone, over zero pages. The archive has the first
// half of the captures.
fn opened(alloc: Global, pages: u32) -> Result<Option<Opened>, Refusal> {
    let bodies = commits_of(alloc, pages, pages.saturating_mul(2))?;
    let Ok(log) = read_log(alloc, Version::One, &bodies) else {
        return Err(Refusal::BadSizes);
    };
    let mut mappings = Mappings::new(alloc, 0);
    let captured = descending(alloc, pages)?;
    map(&mut mappings, &captured[..captured.len() / 2])?;
    let zero = Seq::from(vec![in alloc; Page::zero(); log.base.page_count as usize]?);
    let slots = vec![in alloc; Page::of([SLOT; PAGE_BYTES]); log.base.capacity as usize]?;
    Ok(join(alloc, log, zero, &mappings, &slots)?)
}

fn are_filled(pages: &[Page]) -> bool {
    for (number, page) in pages.iter().enumerate() {
        if *page != filled(number as u64) {
            return false;
        }
    }
    true
}

// Whether the captures are of these pages, the first ones as the slots have them and the others zero.
fn are_captured(captures: &[PageImage], pages: &[u32], held: usize) -> bool {
    for (number, (image, page)) in captures.iter().zip(pages).enumerate() {
        let byte = if number < held { SLOT } else { 0 };
        if image.page != *page || image.bytes != Page::of([byte; PAGE_BYTES]) {
            return false;
        }
    }
    captures.len() == pages.len()
}

fn is_made(store: &Opened, captured: &[u32]) -> bool {
    let held = captured.len() / 2;
    store.low == 0
        && store.held == held as u64
        && store.base.captures == captured.len() as u64
        && store.pages.len() == captured.len()
        && are_filled(store.pages.as_slice())
        && are_captured(store.captures.as_slice(), captured, held)
}

/// Whether such a log of so many commits opens to what it says, beside a Maplog of half as many mappings.
#[inline(never)]
pub fn joins(alloc: Global, pages: u32) -> Result<bool, Refusal> {
    match opened(alloc, pages)? {
        Some(store) => Ok(is_made(&store, &descending(alloc, pages)?)),
        None => Ok(false),
    }
}
