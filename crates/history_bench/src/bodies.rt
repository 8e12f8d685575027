//! Lists of records as an opening reads them, by their bytes.

use retro_base::{PAGE_BYTES, Page};
use std::alloc::{AllocError, Global};

/// Pages of the store.
pub const PAGES: u32 = 65_536;
/// Page images that the archive holds.
pub const CAPACITY: u32 = 1_048_576;

// Puts numbers, each with its width in bytes.
fn put_numbers(out: &mut Vec<u8>, fields: &[(usize, u64)]) -> Result<(), AllocError> {
    for (width, number) in fields {
        let bytes = number.to_be_bytes();
        out.extend_from_slice(&bytes[8 - (*width).min(8)..])?;
    }
    Ok(())
}

fn numbers(alloc: Global, fields: &[(usize, u64)]) -> Result<Vec<u8>, AllocError> {
    let mut out = Vec::new(alloc);
    put_numbers(&mut out, fields)?;
    Ok(out)
}

fn declaration(alloc: Global) -> Result<Vec<u8>, AllocError> {
    numbers(alloc, &[(1, 2), (1, 1), (1, 0), (2, 0)])
}

fn drop_below(alloc: Global, below: u32) -> Result<Vec<u8>, AllocError> {
    numbers(alloc, &[(1, 3), (4, u64::from(below))])
}

// The front of a base, up to its sizes.
fn sizes(alloc: Global, pages: u32, capacity: u32) -> Result<Vec<u8>, AllocError> {
    let (pages, capacity) = (u64::from(pages), u64::from(capacity));
    numbers(alloc, &[(1, 1), (2, 1), (4, pages), (4, capacity)])
}

/// The base of a store of these sizes where nothing was declared.
pub fn made(alloc: Global, pages: u32, capacity: u32) -> Result<Vec<u8>, AllocError> {
    let mut out = sizes(alloc, pages, capacity)?;
    put_numbers(&mut out, &[(8, 0), (8, 0), (4, 1), (4, 0), (4, 0)])?;
    Ok(out)
}

fn put_mark(out: &mut Vec<u8>, number: u32) -> Result<(), AllocError> {
    let label = &[b'a'; 64][..(number % 65) as usize];
    put_numbers(out, &[(8, u64::from(number)), (1, label.len() as u64)])?;
    out.extend_from_slice(label)
}

/// A base of so many snapshots, each declared with one capture more than the one before and with a label of up to 64
/// bytes, and of so many captured pages since the newest.
pub fn base_of(alloc: Global, snapshots: u32, captured: u32) -> Result<Vec<u8>, AllocError> {
    let (newest, count) = (u64::from(snapshots), u64::from(captured));
    let mut out = sizes(alloc, PAGES, CAPACITY)?;
    put_numbers(&mut out, &[(8, newest), (8, newest + count)])?;
    put_numbers(&mut out, &[(4, 1), (4, newest), (4, count)])?;
    for number in 1..snapshots.saturating_add(1) {
        put_mark(&mut out, number)?;
    }
    for page in 0..captured {
        put_numbers(&mut out, &[(2, u64::from(page))])?;
    }
    Ok(out)
}

/// A log that declares so many snapshots, and then as often drops the oldest and declares one more.
pub fn log_of(alloc: Global, snapshots: u32) -> Result<Vec<Vec<u8>>, AllocError> {
    let mut bodies = vec![in alloc; made(alloc, PAGES, CAPACITY)?]?;
    for _ in 0..snapshots {
        bodies.push(declaration(alloc)?)?;
    }
    for below in 2..snapshots.saturating_add(2) {
        bodies.push(drop_below(alloc, below)?)?;
        bodies.push(declaration(alloc)?)?;
    }
    Ok(bodies)
}

/// What a page has once it is written.
pub fn filled(page: u64) -> Page {
    Page::of([(page % 251) as u8 + 1; PAGE_BYTES])
}

/// A commit that writes so many pages from this one on.
pub fn commit(alloc: Global, first: u32, count: u32) -> Result<Vec<u8>, AllocError> {
    let mut out = numbers(alloc, &[(1, 2), (1, 0), (2, u64::from(count))])?;
    for page in first..first.saturating_add(count) {
        put_numbers(&mut out, &[(2, u64::from(page))])?;
        out.extend_from_slice(filled(u64::from(page)).bytes())?;
    }
    Ok(out)
}

/// A log that declares a snapshot, and then commits each of so many pages alone, the last first.
pub fn commits_of(alloc: Global, pages: u32, capacity: u32) -> Result<Vec<Vec<u8>>, AllocError> {
    let mut bodies = vec![in alloc; made(alloc, pages, capacity)?]?;
    bodies.push(declaration(alloc)?)?;
    for page in 0..pages {
        bodies.push(commit(alloc, pages - 1 - page, 1)?)?;
    }
    Ok(bodies)
}

/// A run of mappings of the pages from 0 on.
pub fn run(alloc: Global, first: u64, count: u64) -> Result<Vec<u8>, AllocError> {
    let mut out = numbers(alloc, &[(1, 2), (8, first), (4, count)])?;
    for page in 0..count {
        put_numbers(&mut out, &[(2, page)])?;
    }
    Ok(out)
}

/// A low mark: the mappings below that number are forgotten.
pub fn low_mark(alloc: Global, low: u64) -> Result<Vec<u8>, AllocError> {
    numbers(alloc, &[(1, 3), (8, low)])
}

/// A Maplog of that many mappings in long runs, and then so often a low mark and a run of one.
pub fn maplog_of(alloc: Global, mappings: u64, pairs: u64) -> Result<Vec<Vec<u8>>, AllocError> {
    let start = numbers(alloc, &[(1, 1), (2, 1), (8, 0), (4, u64::from(CAPACITY))])?;
    let mut bodies = vec![in alloc; start]?;
    for index in 0..mappings.div_ceil(4096) {
        let first = index.saturating_mul(4096);
        let count = mappings.saturating_sub(first).min(4096);
        bodies.push(run(alloc, first, count)?)?;
    }
    let mut end = mappings;
    for low in 1..pairs.saturating_add(1) {
        bodies.push(low_mark(alloc, low)?)?;
        bodies.push(run(alloc, end, 1)?)?;
        end = end.saturating_add(1);
    }
    Ok(bodies)
}
