//! A small archive, its captures and its devices.

use crate::trial::{Trial, make};
use disk_mem::MemDisk;
use disk_model::{Disk, Sizes};
use race_model::{Batch, Fault};
use retro_base::{BATCH, Page, Refusal};
use std::alloc::Global;
use std::marker::Brand;
use std::sync::ledger::Blank;

// A store of 16 pages and 64 slots.
pub const SMALL: Sizes = Sizes {
    pages: 16,
    capacity: 64,
};

pub const PAGELOG_BYTES: u64 = 65_536;

pub const MAPLOG_BYTES: u64 = 12_288;

// A page of this byte alone.
pub fn page(byte: u8) -> Page {
    Page::of([byte; 1024])
}

// A device of that many zeros.
pub fn zeros(alloc: Global, size: u64) -> Result<MemDisk, Refusal> {
    MemDisk::new(alloc, size, Vec::new(alloc), None)
}

// A Maplog that lists no mapping.
pub fn empty_maplog(alloc: Global) -> Result<MemDisk, Refusal> {
    let mut maplog = zeros(alloc, MAPLOG_BYTES)?;
    make(alloc, &mut maplog, SMALL)?;
    Ok(maplog)
}

// An archive without a capture.
pub fn empty(alloc: Global) -> Result<Trial<MemDisk>, Refusal> {
    let pagelog = zeros(alloc, PAGELOG_BYTES)?;
    Trial::open(alloc, pagelog, empty_maplog(alloc)?, SMALL)
}

// Captures of these pages, each of a byte alone.
pub fn batch_of(
    alloc: Global,
    first: u64,
    low: u64,
    captures: &[(u32, u8)],
) -> Result<Batch, Refusal> {
    let mut batch = Batch::new(alloc)?;
    batch.restart(first, low);
    for (number, byte) in captures {
        if batch.len() < BATCH {
            batch.add(*number, &page(*byte));
        }
    }
    Ok(batch)
}

// Lays and enters a batch.
pub fn send<D: Disk + Drop>(trial: &mut Trial<D>, batch: &Batch) -> Result<u64, Fault> {
    trial.lay(batch)?;
    trial.enter(batch)
}

// Whether a page's capture from a number on and below another is of this byte alone, or is not there.
pub type Finding = (u64, u32, u64, Option<u8>);

pub fn finds<D: Disk + Drop>(
    alloc: Global,
    trial: &mut Trial<D>,
    finding: Finding,
) -> Result<bool, Fault> {
    let (start, number, upto, byte) = finding;
    let found = image(alloc, trial, start, number, upto)?;
    Ok(found == byte.map(page))
}

// The image of a page's first capture from a number on and below another.
pub fn image<D: Disk + Drop>(
    alloc: Global,
    trial: &mut Trial<D>,
    start: u64,
    number: u32,
    upto: u64,
) -> Result<Option<Page>, Fault> {
    trial.find::<Brand>(alloc, Blank::new(1), start, number, upto)
}

// Writes the bytes from that place on.
pub fn write<D: Disk>(disk: &mut D, place: u64, bytes: &[u8]) -> Result<(), Refusal> {
    let size = disk.size();
    if place > size || size - place < bytes.len() as u64 {
        return Err(Refusal::BadSizes);
    }
    disk.write_at(place, bytes).map_err(|_| Refusal::BadSizes)
}

// The page and the byte of a capture.
pub fn capture(number: u64) -> (u32, u8) {
    ((number % 16) as u32, (number % 251 + 1) as u8)
}

// Sends the capture of that number alone, behind a low that many numbers below it.
pub fn send_one(
    alloc: Global,
    trial: &mut Trial<MemDisk>,
    number: u64,
    kept: u64,
) -> Result<bool, Fault> {
    let low = number.saturating_sub(kept);
    match batch_of(alloc, number, low, &[capture(number)]) {
        Ok(batch) => Ok(send(trial, &batch)?.checked_sub(1) == Some(number)),
        Err(why) => Err(Fault { why, wrote: false }),
    }
}

// The first capture of these that is not sent.
pub fn first_unsent(
    alloc: Global,
    trial: &mut Trial<MemDisk>,
    captures: u64,
) -> Result<Option<u64>, Fault> {
    for number in 0..captures {
        if !send_one(alloc, trial, number, 63)? {
            return Ok(Some(number));
        }
    }
    Ok(None)
}

// The first capture of these that is not read as it was laid.
pub fn first_unread(
    alloc: Global,
    trial: &mut Trial<MemDisk>,
    from: u64,
    to: u64,
) -> Result<Option<u64>, Fault> {
    for number in from..to {
        let (page, byte) = capture(number);
        if !finds(alloc, trial, (number, page, number + 1, Some(byte)))? {
            return Ok(Some(number));
        }
    }
    Ok(None)
}

// The devices of an archive of two captures.
pub fn devices_of_two(alloc: Global) -> Result<(MemDisk, MemDisk), Refusal> {
    let mut trial = empty(alloc)?;
    let batch = batch_of(alloc, 0, 0, &[capture(0), capture(1)])?;
    match send(&mut trial, &batch) {
        Ok(_held) => Ok(trial.into_disks()),
        Err(fault) => Err(fault.why),
    }
}
